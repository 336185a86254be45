// Which races are reported.
ghost use Rattle.std.specs.Prelude.{◌≡◌, ◌+◌, ◌-◌, ◌^◌, ◌<◌, [], IfOk, OnOk, OnErr};
ghost use Rattle.run_laws.specs.Reports.{kept_after};

use crate::fates::{Fate, Fates, add_fate, fate_of};
use crate::stack_pair::{StackPair, copied};
use crate::suppressions::Suppressions;
use indexmap::IndexMap;
use run_record::{NoMemory, Report, Reports, Side};
use std::alloc::Global;
use std::marker::Model;

/// What became of an offered race.
#[derive(Clone, Copy, Debug, PartialEq, Eq)]
pub enum Offered {
    /// It is kept, as the report of this number, from 1.
    Reported(u32),
    /// The rule of this number is met by its two stacks.
    Suppressed(usize),
    /// The report of this number, from 1, is the first kept one with the same two stacks, in either order.
    Equal(u32),
}

/// The rules of a run and its reports so far. About each pair of stacks, in either order, the rules are asked once. Contracts
/// see the rules, the kept reports in order, and how many were suppressed and how many equal to a kept one.
#[derive(Drop)]
pub struct Reporter<'a, S: Suppressions> {
    alloc: Global,
    rules: &'a S,
    reports: Reports,
    fates: Fates,
    suppressed: u32,
    equal: u32,
}

impl<'a, S: Suppressions> Model for Reporter<'a, S> {
    ghost use Rattle.report_text.specs.Offers.{Reporting};
    ghost use Rattle.report_text.specs.Fates.{KnowsFates};

    ghost Value = { Reporting S };

    ghost view = { λ r. record { rules = r.rules.now; kept = record { reports = r.reports; suppressed = r.suppressed; equal = r.equal } } };

    ghost invariant = { λ r. KnowsFates (S.rule_met r.rules.now) r.reports r.fates.entries };
}

impl<'a, S: Suppressions> Reporter<'a, S> {
    ghost use Rattle.report_text.specs.Offers.{offered, offers, is_met};

    /// No reports, and rules that weren't asked yet. It takes no memory.
    pub fn new(alloc: Global, rules: &'a S) -> Reporter<'a, S>
        ensures { result ≡ record { rules = rules.now; kept = record { reports = []; suppressed = 0; equal = 0 } } }
    {
        Reporter {
            alloc,
            rules,
            reports: Reports::new(alloc),
            fates: IndexMap::new(alloc),
            suppressed: 0,
            equal: 0,
        }
    }

    /// Offers a race: the access at which it was found, and the one before. After an error nothing has changed, and both
    /// accesses are given up.
    pub fn offer(&mut self, mine: Side, previous: Side) -> Result<Offered, NoMemory>
        requires { offers self.old.kept < 2 ^ 32 - 1 }
        ensures answer { IfOk result (λ o. o ≡ offered self.old.kept (S.rule_met self.old.rules mine.stack previous.stack) (record { mine = mine; previous = previous })) }
        ensures kept { OnOk result (self.new.kept ≡ kept_after (is_met (S.rule_met self.old.rules)) self.old.kept (record { mine = mine; previous = previous })) }
        ensures counted { OnOk result (offers self.new.kept ≡ offers self.old.kept + 1) }
        ensures rules { self.new.rules ≡ self.old.rules }
        ensures err { OnErr result (self.new ≡ self.old) }
    {
        let mut mine = mine;
        let mut previous = previous;
        let stacks = StackPair {
            mine: mine.stack.take(),
            previous: previous.stack.take(),
        };
        match fate_of(&self.fates, &stacks) {
            Some(Fate::Met(rule)) => {
                self.suppressed += 1;
                return Ok(Offered::Suppressed(rule));
            }
            Some(Fate::Told(number)) => {
                self.equal += 1;
                return Ok(Offered::Equal(number));
            }
            None => {}
        }
        self.fates.reserve(1)?;
        if let Some(rule) = self.rules.rule_met(&stacks.mine, &stacks.previous) {
            add_fate(&mut self.fates, stacks, Fate::Met(rule));
            self.suppressed += 1;
            return Ok(Offered::Suppressed(rule));
        }
        mine.stack = copied(self.alloc, &stacks.mine)?;
        previous.stack = copied(self.alloc, &stacks.previous)?;
        self.reports.push(Report { mine, previous })?;
        let number = self.reports.len() as u32;
        add_fate(&mut self.fates, stacks, Fate::Told(number));
        Ok(Offered::Reported(number))
    }

    /// The kept reports, in order.
    pub fn reports(&self) -> &[Report]
        ensures { result.now ≡ self.now.kept.reports }
    {
        self.reports.as_slice()
    }

    /// How many races met a rule.
    pub fn suppressed(&self) -> u32
        ensures { result ≡ self.now.kept.suppressed }
    {
        self.suppressed
    }

    /// How many races had the same two stacks as a kept report.
    pub fn equal(&self) -> u32
        ensures { result ≡ self.now.kept.equal }
    {
        self.equal
    }

    /// The kept reports, in order, as a list of its own.
    pub fn into_reports(self) -> Reports
        ensures { result ≡ self.entry.kept.reports }
    {
        let Reporter { reports, .. } = self;
        reports
    }
}
