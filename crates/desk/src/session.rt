ghost use Rattle.std.specs.Prelude.{◌≡◌, ◌++◌, IfOk, OnOk};
ghost use Rattle.rules.specs.Rules.{first_broken};
ghost use Rattle.gate.specs.Closed.{closing_rules};
ghost use Rattle.desk.specs.Answered.{Reaches, Stopped, event_answer};
ghost use Rattle.desk.specs.Effects.{after_event, closes, effect, passed_on, requested, session_of};
ghost use Rattle.desk.specs.Printed.{Appends};
ghost use Rattle.desk.specs.declared.event.Event.TheVariants as event;

use super::event::{Event, Link};
use super::printing::{EventAnswer, Fault, Form};
use super::reading::read_event;
use super::sink::Sink;
use fields::rest::Rest;
use gate::day::TradingDay;
use gate::pass::Pass;
use history::reading::balance;
use orders::order::{Order, Request};
use registers::Register;
use rules::refusal::Refusal;
use tables::table::SecurityList;

// What the events work on: the day, the securities, the registers, the book, and the link to the market.
pub(crate) struct Session<'t, 'a, P: Register, A: Register> {
    pub(crate) day: TradingDay,
    pub(crate) list: &'t mut SecurityList<'a>,
    pub(crate) participants: P,
    pub(crate) accounts: A,
    pub(crate) book: &'t mut [Order],
    pub(crate) link: Link,
}

impl<P: Register, A: Register> Session<'_, '_, P, A> {
    // The balance of the quota, of which the law holds in every history.
    fn balance(&self) -> i64
        ensures { result ≡ (session_of P.Register.meaning A.Register.meaning self.now).desk.figures.balance }
    {
        balance(
            &self.day,
            self.list,
            &self.participants,
            &self.accounts,
            self.book,
        )
    }

    // The first rule of closing that is broken.
    fn closing_refusal(&self) -> Option<Refusal>
        ensures { result ≡ first_broken (closing_rules self.now.day.figures self.now.book.now) }
    {
        self.day.closing_refusal(self.book)
    }

    // Sends the order of a pass, or voids it where the link is down; answers the order's number.
    fn pass_on(&mut self, pass: Pass) -> Result<u64, Refusal>
        ensures shows { result ≡ (passed_on self.old.link (session_of P.Register.meaning A.Register.meaning self.old).desk pass).shows }
        ensures after { (session_of P.Register.meaning A.Register.meaning self.new).desk ≡ (passed_on self.old.link (session_of P.Register.meaning A.Register.meaning self.old).desk pass).desk }
        ensures link { self.new.link ≡ self.old.link }
    {
        let number = pass.number();
        match self.link {
            Link::Up => {
                self.day.send(self.book, pass)?;
                Ok(number)
            }
            Link::Down => {
                self.day.void(&mut self.participants, &mut self.accounts, self.book, pass)?;
                Err(Refusal::Link)
            }
        }
    }

    // Reserves a request, and passes its order on.
    fn place(&mut self, request: Request) -> Result<u64, Refusal>
        ensures shows { result ≡ (effect (session_of P.Register.meaning A.Register.meaning self.old) (requested request)).shows }
        ensures after { session_of P.Register.meaning A.Register.meaning self.new ≡ after_event (session_of P.Register.meaning A.Register.meaning self.old) (requested request) }
    {
        let pass = self.day.reserve(
            self.list,
            &mut self.participants,
            &mut self.accounts,
            self.book,
            request,
        )?;
        self.pass_on(pass)
    }

    // Does an event's work; answers the number of its order, 0 where it has none.
    fn work(&mut self, event: Event) -> Result<u64, Refusal>
        ensures shows { result ≡ (effect (session_of P.Register.meaning A.Register.meaning self.old) event).shows }
        ensures after { session_of P.Register.meaning A.Register.meaning self.new ≡ after_event (session_of P.Register.meaning A.Register.meaning self.old) event }
    {
        match event {
            Event::Step => self.day.step().map(|()| 0),
            Event::Notice {
                code,
                foreign,
                total,
            } => self.day.notice(self.list, code, foreign, total).map(|()| 0),
            Event::Link { state } => {
                self.link = state;
                Ok(0)
            }
            Event::Request {
                side,
                participant,
                account,
                code,
                price,
                shares,
            } => self.place(Request {
                participant,
                account,
                code,
                side,
                price,
                shares,
            }),
            Event::Trade {
                order,
                shares,
                price,
            } => self
                .day
                .trade(self.book, order, shares, price)
                .map(|()| order),
            Event::Return { order } => self
                .day
                .give_back(&mut self.participants, &mut self.accounts, self.book, order)
                .map(|()| order),
            Event::Confirm { order } => self
                .day
                .confirm(&mut self.participants, &mut self.accounts, self.book, order)
                .map(|()| order),
            Event::Decline { order } => self.day.decline(self.book, order).map(|()| order),
            Event::Cancel { order, participant } => self
                .day
                .cancel(self.book, order, participant)
                .map(|()| order),
            Event::Close => self.closing_refusal().map_or(Ok(0), Err),
        }
    }

    // Does an event's work and writes its line, on a form where it has room; answers whether the day closes.
    fn respond<S: Sink>(
        &mut self,
        event: Event,
        form: &mut Form,
        out: &mut S,
    ) -> Result<bool, S::Full>
        ensures after { session_of P.Register.meaning A.Register.meaning self.new ≡ after_event (session_of P.Register.meaning A.Register.meaning self.old) event }
        ensures wrote { OnOk result (S.Sink.view out.new ≡ S.Sink.after out.old (event_answer (session_of P.Register.meaning A.Register.meaning self.old) event)) }
        ensures closing { IfOk result (λ b. b ≡ closes (session_of P.Register.meaning A.Register.meaning self.old) event) }
    {
        let shows = self.work(event);
        let answer = EventAnswer {
            letter: event.letter(),
            shows,
            balance: self.balance(),
        };
        answer.write(form, out)?;
        Ok(event.has_closed(shows))
    }

    // Answers the events; what follows an accepted close is left.
    pub(crate) fn answer<'r, S: Sink>(
        &mut self,
        events: Rest<'r>,
        out: &mut S,
    ) -> Result<Option<Rest<'r>>, S::Full>
        ensures reaches { Reaches (session_of P.Register.meaning A.Register.meaning self.old).desk (session_of P.Register.meaning A.Register.meaning self.new).desk }
        ensures answered { IfOk result (λ late. Appends S.Sink.view S.Sink.after out.old out.new (λ text. Stopped (session_of P.Register.meaning A.Register.meaning self.old) events.entry.line events.entry.bytes.now text (session_of P.Register.meaning A.Register.meaning self.new).desk late)) }
    {
        let mut rest = events;
        let mut form = Form::new();
        'events: while !rest.bytes.is_empty() {
            match read_event(&rest) {
                Ok(event) => {
                    let closing = self.respond(event, &mut form, out)?;
                    rest.pass(event.letter());
                    if closing {
                        return Ok(Some(rest));
                    }
                }
                Err(fault) => {
                    Fault::Day(fault).write(out)?;
                    return Ok(None);
                }
            }
        }
        Ok(None)
    }
}
