//! What numbers of rows tell.

ghost use Rattle.std.specs.Prelude.{◌≡◌, IfErr};
ghost use Rattle.value.specs.Refusals.{out_of_memory};

use crate::counts::Sum;
use crate::facts::{Counting, Reason, Reasons, Rule};
use crate::history::History;
use crate::solver::Solver;
use crate::visits::{Visit, counts, may_count};
use orders::ways::way::Way;
use std::alloc::Allocator;
use value::refusal::Refusal;

/// How many rows a statement chose at least, and at most.
#[derive(Clone, Copy)]
struct Bounds {
    least: usize,
    most: usize,
}

impl<'h, A: Allocator + Copy> Solver<'h, A> {
    /// Looks at a statement whose answer tells how many rows it chose.
    pub(crate) fn examine_sum(&mut self, number: usize) -> Result<Option<usize>, Refusal>
        ensures { IfErr result (λ e. e ≡ out_of_memory) }
    {
        let history = self.history;
        let Some(sum) = history.sums.get(number) else {
            return Ok(None);
        };
        if self.absent_by(sum.place).is_some() {
            return Ok(None);
        }
        self.spend(sum.visits.len());
        let bounds = self.bounds(sum);
        if bounds.least > sum.number && self.is_present(sum.place) {
            let rule = Rule::Overfull(counting(sum));
            return self.tell_number(sum, true, rule);
        }
        if bounds.most < sum.number && self.is_present(sum.place) {
            let rule = Rule::Lacking(counting(sum));
            return self.tell_number(sum, false, rule);
        }
        if bounds.least == bounds.most {
            return Ok(None);
        }
        if bounds.least == sum.number {
            return self.exclude_all(sum, true);
        }
        if bounds.most == sum.number {
            return self.exclude_all(sum, false);
        }
        Ok(None)
    }

    // How many rows a statement chose, by the ways that are left.
    fn bounds(&self, sum: &Sum<A>) -> Bounds {
        let history = self.history;
        let mut bounds = Bounds {
            least: sum.least,
            most: sum.most,
        };
        for number in &sum.visits {
            if let Some(visit) = history.visit(*number) {
                if self.surely_counts(visit, sum.statement) {
                    bounds.least = bounds.least.saturating_add(1);
                }
                if self.may_count(visit, sum.statement) {
                    bounds.most = bounds.most.saturating_add(1);
                }
            }
        }
        bounds
    }

    // Whether all ways that are left of a visit count a statement.
    fn surely_counts(&self, visit: &Visit<A>, statement: usize) -> bool {
        for (number, way) in visit.ways.as_slice().iter().enumerate() {
            if self.is_left(visit, number) && !counts(way, statement) {
                return false;
            }
        }
        true
    }

    // Whether one of them may.
    fn may_count(&self, visit: &Visit<A>, statement: usize) -> bool {
        for (number, way) in visit.ways.as_slice().iter().enumerate() {
            if self.is_left(visit, number) && may_count(way, statement) {
                return true;
            }
        }
        false
    }

    // Why a statement chose no fewer rows, or no more.
    fn number_reasons(&self, sum: &Sum<A>, is_least: bool) -> Result<Reasons<A>, Refusal>
        ensures { IfErr result (λ e. e ≡ out_of_memory) }
    {
        let history = self.history;
        let mut reasons = Reasons::none(self.alloc);
        for number in &sum.visits {
            if let Some(visit) = history.visit(*number)
                && self.is_weighed(visit, sum.statement, is_least)
            {
                self.push_ways_gone(visit, sum.statement, is_least, &mut reasons)?;
            }
        }
        Ok(reasons)
    }

    // Whether it is known of a visit that a statement surely chose its row, or that it can't have.
    fn is_weighed(&self, visit: &Visit<A>, statement: usize, is_least: bool) -> bool {
        if is_least {
            self.surely_counts(visit, statement)
        } else {
            !self.may_count(visit, statement)
        }
    }

    // Adds why a visit has no way left that doesn't count a statement, or none that may.
    fn push_ways_gone(
        &self,
        visit: &Visit<A>,
        statement: usize,
        is_least: bool,
        reasons: &mut Reasons<A>,
    ) -> Result<(), Refusal>
        ensures { IfErr result (λ e. e ≡ out_of_memory) }
    {
        for (number, way) in visit.ways.as_slice().iter().enumerate() {
            let matters = if is_least {
                !counts(way, statement)
            } else {
                may_count(way, statement)
            };
            if matters {
                reasons.push_any(self.excluded_by(visit.first_way.saturating_add(number)))?;
            }
        }
        Ok(())
    }

    // Tells that a statement chose too many rows, or can't have chosen enough.
    fn tell_number(
        &mut self,
        sum: &Sum<A>,
        is_least: bool,
        rule: Rule,
    ) -> Result<Option<usize>, Refusal>
        ensures { IfErr result (λ e. e ≡ out_of_memory) }
    {
        let mut reasons = self.number_reasons(sum, is_least)?;
        reasons.push_any(self.present_by(sum.place))?;
        let fact = self.tell(rule, reasons.as_slice())?;
        Ok(Some(fact))
    }

    // Excludes the ways by which a statement would have chosen more rows than it did, or fewer: gives a contradiction,
    // where no way is left.
    fn exclude_all(&mut self, sum: &Sum<A>, is_least: bool) -> Result<Option<usize>, Refusal>
        ensures { IfErr result (λ e. e ≡ out_of_memory) }
    {
        let reasons = self.number_reasons(sum, is_least)?;
        let base = self.tell(Rule::Weighed, reasons.as_slice())?;
        for number in &sum.visits {
            if self.exclude_at(sum, *number, is_least, base)? {
                let found = self.wayless(*number)?;
                if found.is_some() {
                    return Ok(found);
                }
            }
        }
        Ok(None)
    }

    // Excludes those of a visit: whether there are any.
    fn exclude_at(
        &mut self,
        sum: &Sum<A>,
        number: usize,
        is_least: bool,
        base: usize,
    ) -> Result<bool, Refusal>
        ensures { IfErr result (λ e. e ≡ out_of_memory) }
    {
        let history = self.history;
        let Some(visit) = history.visit(number) else {
            return Ok(false);
        };
        if self.is_weighed(visit, sum.statement, is_least) {
            return Ok(false);
        }
        let mut is_any = false;
        for (way, told) in visit.ways.as_slice().iter().enumerate() {
            if is_out(told, sum.statement, is_least) && self.is_left(visit, way) {
                let way = visit.first_way.saturating_add(way);
                let rule = rule_of(sum, number, way, is_least);
                let fact = self.tell(rule, &[Reason::Fact(base)])?;
                self.exclude(number, way, fact)?;
                is_any = true;
            }
        }
        Ok(is_any)
    }
}

// Whether by a way a statement would have chosen a row too many, or one too few.
fn is_out<A: Allocator>(way: &Way<A>, statement: usize, is_least: bool) -> bool {
    if is_least {
        counts(way, statement)
    } else {
        !may_count(way, statement)
    }
}

// Of which statement a sum is.
fn counting<A: Allocator>(sum: &Sum<A>) -> Counting {
    Counting {
        place: sum.place,
        statement: sum.statement,
    }
}

// The rule by which a way of a visit is out of the question.
fn rule_of<A: Allocator>(sum: &Sum<A>, visit: usize, way: usize, is_least: bool) -> Rule {
    if is_least {
        Rule::TooMany(counting(sum), visit, way)
    } else {
        Rule::TooFew(counting(sum), visit, way)
    }
}
