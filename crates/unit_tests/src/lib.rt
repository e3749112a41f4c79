// Examples of fields, of the lookup and of registers, as tests.
#![tactic(auto)]

#[cfg(test)]
mod field_tests;
#[cfg(test)]
mod lookup_tests;
#[cfg(test)]
mod register_tests;
