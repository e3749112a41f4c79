// Tests of whole answers, of loading, of the registers over what was loaded, and of the day's calls.
#![tactic(auto)]

#[cfg(test)]
mod answering;
#[cfg(test)]
mod bounds;
#[cfg(test)]
mod closing;
#[cfg(test)]
mod cutting;
#[cfg(test)]
mod day_calls;
#[cfg(test)]
mod in_flight;
#[cfg(test)]
mod law;
#[cfg(test)]
mod loading;
#[cfg(test)]
mod one_order;
#[cfg(test)]
mod pools;
#[cfg(test)]
mod prices;
#[cfg(test)]
mod records;
#[cfg(test)]
mod replaying;
#[cfg(test)]
mod reserving;
#[cfg(test)]
mod rows;
#[cfg(test)]
mod turns;
