//! What has been found so far: facts, and what they tell.

ghost use Rattle.std.specs.Prelude.{◌≡◌, IfErr};
ghost use Rattle.value.specs.Refusals.{out_of_memory};

use crate::facts::{Fact, Presence, Reason, Reasons, Rule, Sight, State};
use crate::history::History;
use crate::lists::{at, put, repeated};
use crate::order::Order;
use certificate::certificate::{Assumption, Line};
use std::alloc::Allocator;
use std::collections::VecDeque;
use value::refusal::Refusal;
use value::value::Value;

/// How many looks are a step: at a way of a reader for a writer, at an edge, or the like.
const LOOKS: usize = 512;
/// So many numbers of an order are looked at in the time of one look.
const NUMBERS: usize = 8;

/// That a transaction comes before another, by a fact, and the edge from the same transaction that was told before it.
#[derive(Clone, Copy)]
pub(crate) struct Edge {
    pub(crate) from: usize,
    pub(crate) to: usize,
    pub(crate) fact: usize,
    pub(crate) next: Option<usize>,
}

/// What is supposed: the fact that says so, and how much else there was before it.
#[derive(Clone, Copy)]
pub(crate) struct Level {
    pub(crate) fact: usize,
    changes: usize,
    settled: usize,
    cursor: usize,
}

/// Facts, what they tell, and which needs have still to be looked at. Numbers behind those of needs are those of sums.
#[derive(Drop)]
pub(crate) struct Solver<'h, A: Allocator> {
    pub(crate) alloc: A,
    pub(crate) history: &'h History<A>,
    pub(crate) order: Order<A>,
    pub(crate) facts: Vec<Fact, A>,
    reasons: Vec<Reason, A>,
    last_edge: Vec<Option<usize>, A>,
    edges: Vec<Edge, A>,
    presence: Vec<Presence, A>,
    excluded: Vec<Option<usize>, A>,
    states: Vec<State<A>, A>,
    last_state: Vec<Option<usize>, A>,
    pub(crate) refutations: Vec<Vec<Line<A>, A>, A>,
    queue: VecDeque<usize, A>,
    is_queued: Vec<bool, A>,
    // Those that more is known to come before, since the needs that hang on them were last looked at.
    moved: Vec<usize, A>,
    has_moved: Vec<bool, A>,
    is_settled: Vec<bool, A>,
    settled: Vec<usize, A>,
    pub(crate) levels: Vec<Level, A>,
    /// The first need of which something may still be supposed.
    pub(crate) cursor: usize,
    pub(crate) steps: u64,
    // Looks that aren't a whole step yet.
    looks: usize,
}

impl<'h, A: Allocator + Copy> Solver<'h, A> {
    /// Nothing is found yet but what time tells.
    pub(crate) fn of(
        alloc: A,
        history: &'h History<A>,
        order: Order<A>,
        steps: u64,
    ) -> Result<Solver<'h, A>, Refusal>
        ensures { IfErr result (λ e. e ≡ out_of_memory) }
    {
        let count = history.times.count();
        let asked = history.needs.len().saturating_add(history.sums.len());
        Ok(Solver {
            alloc,
            history,
            order,
            facts: Vec::new(alloc),
            reasons: Vec::new(alloc),
            last_edge: repeated(alloc, count, None)?,
            edges: Vec::new(alloc),
            presence: first_presence(alloc, history)?,
            excluded: repeated(alloc, history.ways, None)?,
            states: Vec::new(alloc),
            last_state: repeated(alloc, history.visits.len(), None)?,
            refutations: Vec::new(alloc),
            queue: VecDeque::new(alloc),
            is_queued: repeated(alloc, asked, false)?,
            moved: Vec::new(alloc),
            has_moved: repeated(alloc, count, false)?,
            is_settled: repeated(alloc, asked, false)?,
            settled: Vec::new(alloc),
            levels: Vec::new(alloc),
            cursor: 0,
            steps,
            looks: 0,
        })
    }

    /// What was looked at in the order is taken from the steps.
    pub(crate) fn spend_order(&mut self) {
        let numbers = self.order.take_work();
        self.spend(numbers / NUMBERS);
    }

    /// So many looks are taken from the steps.
    pub(crate) fn spend(&mut self, looks: usize) {
        let all = self.looks.saturating_add(looks);
        self.looks = all % LOOKS;
        self.steps = self.steps.saturating_sub((all / LOOKS) as u64);
    }

    // ---- what is known

    /// Whether a transaction is known to be there.
    pub(crate) fn is_present(&self, place: usize) -> bool {
        matches!(
            self.presence_of(place),
            Presence::Committed | Presence::Present(_)
        )
    }

    /// Whether it isn't known whether it is there.
    pub(crate) fn is_open(&self, place: usize) -> bool {
        matches!(self.presence_of(place), Presence::Open)
    }

    // What is known of whether it is there.
    fn presence_of(&self, place: usize) -> Presence {
        at(self.presence.as_slice(), place, Presence::Committed)
    }

    /// The fact by which a transaction is there.
    pub(crate) fn present_by(&self, place: usize) -> Option<usize> {
        match self.presence_of(place) {
            Presence::Present(fact) => Some(fact),
            _ => None,
        }
    }

    /// The fact by which it isn't.
    pub(crate) fn absent_by(&self, place: usize) -> Option<usize> {
        match self.presence_of(place) {
            Presence::Absent(fact) => Some(fact),
            _ => None,
        }
    }

    /// The fact by which a way, by its number among all, is out of the question.
    pub(crate) fn excluded_by(&self, way: usize) -> Option<usize> {
        at(self.excluded.as_slice(), way, None)
    }

    /// What a visit is known to have found in a column.
    pub(crate) fn found(&self, sight: Sight) -> Option<&State<A>> {
        let mut next = at(self.last_state.as_slice(), sight.visit, None);
        for _ in 0..self.states.len() {
            let state = self.states.get(next?)?;
            if state.sight.column == sight.column {
                return Some(state);
            }
            next = state.next;
        }
        None
    }

    /// What was found, by its number.
    pub(crate) fn state(&self, number: usize) -> Option<&State<A>> {
        self.states.get(number)
    }

    /// The last edge that was told from a transaction.
    pub(crate) fn last_edge(&self, place: usize) -> Option<usize> {
        at(self.last_edge.as_slice(), place, None)
    }

    /// An edge, by its number.
    pub(crate) fn edge(&self, number: usize) -> Option<Edge> {
        match self.edges.get(number) {
            Some(edge) => Some(*edge),
            None => None,
        }
    }

    /// All edges, in the order in which they were told.
    pub(crate) fn edges(&self) -> &[Edge] {
        self.edges.as_slice()
    }

    /// A fact, by its number.
    pub(crate) fn fact(&self, number: usize) -> Option<Fact> {
        match self.facts.get(number) {
            Some(fact) => Some(*fact),
            None => None,
        }
    }

    /// A reason, by its number.
    pub(crate) fn reason(&self, number: usize) -> Option<Reason> {
        match self.reasons.get(number) {
            Some(reason) => Some(*reason),
            None => None,
        }
    }

    // ---- which needs are looked at

    /// A need is looked at again, if it isn't settled.
    pub(crate) fn wake(&mut self, need: usize) -> Result<(), Refusal>
        ensures { IfErr result (λ e. e ≡ out_of_memory) }
    {
        let is_asleep = !at(self.is_queued.as_slice(), need, true);
        if is_asleep && !at(self.is_settled.as_slice(), need, true) {
            put(self.is_queued.as_mut_slice(), need, true);
            self.queue.push_back(need)?;
        }
        Ok(())
    }

    // All needs that hang on a transaction are looked at again.
    fn wake_watchers(&mut self, place: usize) -> Result<(), Refusal>
        ensures { IfErr result (λ e. e ≡ out_of_memory) }
    {
        let history = self.history;
        let watchers = history.watchers(place);
        self.spend(watchers.len());
        for need in watchers {
            self.wake(*need)?;
        }
        Ok(())
    }

    // All needs that hang on a transaction are looked at again, also where they seemed settled, and its sums.
    fn stir(&mut self, place: usize) -> Result<(), Refusal>
        ensures { IfErr result (λ e. e ≡ out_of_memory) }
    {
        let history = self.history;
        let watchers = history.watchers(place);
        self.spend(watchers.len());
        for need in watchers {
            put(self.is_settled.as_mut_slice(), *need, false);
            self.wake(*need)?;
        }
        self.wake_sums(place)
    }

    // All sums of a transaction are looked at again.
    fn wake_sums(&mut self, place: usize) -> Result<(), Refusal>
        ensures { IfErr result (λ e. e ≡ out_of_memory) }
    {
        let history = self.history;
        for sum in history.sums_of(place) {
            self.wake(history.needs.len().saturating_add(*sum))?;
        }
        Ok(())
    }

    // More is known to come before a transaction.
    fn move_later(&mut self, place: usize) -> Result<(), Refusal>
        ensures { IfErr result (λ e. e ≡ out_of_memory) }
    {
        if !at(self.has_moved.as_slice(), place, true) {
            put(self.has_moved.as_mut_slice(), place, true);
            self.moved.push(place)?;
        }
        Ok(())
    }

    // The last of those that have moved; from now on it hasn't.
    fn pop_moved(&mut self) -> Option<usize> {
        let place = self.moved.pop()?;
        put(self.has_moved.as_mut_slice(), place, false);
        Some(place)
    }

    // All needs that hang on those that have moved are looked at again.
    fn wake_moved(&mut self) -> Result<(), Refusal>
        ensures { IfErr result (λ e. e ≡ out_of_memory) }
    {
        for _ in 0..self.moved.len() {
            if let Some(place) = self.pop_moved() {
                self.wake_watchers(place)?;
            }
        }
        Ok(())
    }

    // Takes a need off the queue.
    fn pop_need(&mut self) -> Option<usize> {
        let need = self.queue.pop_front()?;
        put(self.is_queued.as_mut_slice(), need, false);
        Some(need)
    }

    /// The next need to be looked at. What hangs on transactions that have moved comes once nothing else is left.
    pub(crate) fn next_need(&mut self) -> Result<Option<usize>, Refusal>
        ensures { IfErr result (λ e. e ≡ out_of_memory) }
    {
        if self.queue.is_empty() {
            self.wake_moved()?;
        }
        Ok(self.pop_need())
    }

    /// No need is looked at any more.
    pub(crate) fn forget_queue(&mut self) {
        for _ in 0..self.queue.len() {
            let _ = self.pop_need();
        }
        self.forget_moved();
    }

    // None of those that have moved is looked at any more.
    fn forget_moved(&mut self) {
        for _ in 0..self.moved.len() {
            let _ = self.pop_moved();
        }
    }

    /// Nothing more can come of a need.
    pub(crate) fn settle(&mut self, need: usize) -> Result<(), Refusal>
        ensures { IfErr result (λ e. e ≡ out_of_memory) }
    {
        put(self.is_settled.as_mut_slice(), need, true);
        self.settled.push(need)?;
        Ok(())
    }

    /// Whether nothing more can come of a need.
    pub(crate) fn is_settled(&self, need: usize) -> bool {
        at(self.is_settled.as_slice(), need, true)
    }

    // ---- what is told

    /// Tells a fact: gives its number.
    pub(crate) fn tell(&mut self, rule: Rule, reasons: &[Reason]) -> Result<usize, Refusal>
        ensures { IfErr result (λ e. e ≡ out_of_memory) }
    {
        let first = self.reasons.len();
        for reason in reasons {
            self.reasons.push(*reason)?;
        }
        self.spend(reasons.len());
        let number = self.facts.len();
        self.facts.push(Fact {
            rule,
            first,
            below: self.reasons.len(),
        })?;
        Ok(number)
    }

    /// A fact tells that the first comes before the second: the fact of a contradiction, where the contrary is known.
    pub(crate) fn link(
        &mut self,
        pair: (usize, usize),
        fact: usize,
    ) -> Result<Option<usize>, Refusal>
        ensures { IfErr result (λ e. e ≡ out_of_memory) }
    {
        let (first, second) = pair;
        if self.order.has(first, second) || !self.is_present(first) {
            return Ok(None);
        }
        if self.order.has(second, first) {
            return self.tell_cycle((first, second), fact);
        }
        let next = self.last_edge(first);
        put(self.last_edge.as_mut_slice(), first, Some(self.edges.len()));
        self.edges.push(Edge {
            from: first,
            to: second,
            fact,
            next,
        })?;
        let changed = self.order.insert(pair)?;
        self.spend_order();
        for place in &changed {
            self.move_later(*place)?;
        }
        Ok(None)
    }

    // Tells that each of two comes before the other.
    fn tell_cycle(&mut self, pair: (usize, usize), fact: usize) -> Result<Option<usize>, Refusal>
        ensures { IfErr result (λ e. e ≡ out_of_memory) }
    {
        let history = self.history;
        let (first, second) = pair;
        let mut reasons = Reasons::none(self.alloc);
        reasons.push_fact(fact)?;
        reasons.push_pair(history, second, first)?;
        reasons.push_any(self.present_by(first))?;
        reasons.push_any(self.present_by(second))?;
        let cycle = self.tell(Rule::Cycle(first, second), reasons.as_slice())?;
        Ok(Some(cycle))
    }

    /// A fact tells that a transaction is there, where that isn't known.
    pub(crate) fn set_present(&mut self, place: usize, fact: usize) -> Result<(), Refusal>
        ensures { IfErr result (λ e. e ≡ out_of_memory) }
    {
        if self.is_open(place) {
            put(self.presence.as_mut_slice(), place, Presence::Present(fact));
            self.stir(place)?;
        }
        Ok(())
    }

    /// A fact tells that a transaction isn't there.
    pub(crate) fn set_absent(&mut self, place: usize, fact: usize) -> Result<(), Refusal>
        ensures { IfErr result (λ e. e ≡ out_of_memory) }
    {
        if self.is_open(place) {
            put(self.presence.as_mut_slice(), place, Presence::Absent(fact));
            self.stir(place)?;
        }
        Ok(())
    }

    /// A fact tells that a way, by its number among all, is none in which a visit was made.
    pub(crate) fn exclude(&mut self, visit: usize, way: usize, fact: usize) -> Result<(), Refusal>
        ensures { IfErr result (λ e. e ≡ out_of_memory) }
    {
        let history = self.history;
        put(self.excluded.as_mut_slice(), way, Some(fact));
        self.stir(history.place_of(visit))
    }

    /// Tells what a visit found in a column.
    pub(crate) fn tell_found(
        &mut self,
        sight: Sight,
        state: Option<Value<A>>,
        reasons: &[Reason],
    ) -> Result<(), Refusal>
        ensures { IfErr result (λ e. e ≡ out_of_memory) }
    {
        let history = self.history;
        let number = self.states.len();
        let fact = self.tell(Rule::Found(sight, number), reasons)?;
        let next = at(self.last_state.as_slice(), sight.visit, None);
        self.states.push(State {
            sight,
            state,
            fact,
            next,
        })?;
        put(self.last_state.as_mut_slice(), sight.visit, Some(number));
        self.stir(history.place_of(sight.visit))
    }

    // ---- suppositions

    /// From here on something is supposed, by the next fact.
    pub(crate) fn begin_level(&mut self) -> Result<(), Refusal>
        ensures { IfErr result (λ e. e ≡ out_of_memory) }
    {
        self.order.keep_trail();
        self.levels.push(Level {
            fact: self.facts.len(),
            changes: self.order.changes(),
            settled: self.settled.len(),
            cursor: self.cursor,
        })?;
        Ok(())
    }

    /// All is as it was before the level of this number.
    pub(crate) fn end_levels(&mut self, number: usize) {
        let Some(level) = self.levels.get(number) else {
            return;
        };
        let Level {
            fact,
            changes,
            settled,
            cursor,
        } = *level;
        self.cursor = cursor;
        for _ in fact..self.facts.len() {
            self.forget_fact();
        }
        self.order.take_back(changes);
        for _ in settled..self.settled.len() {
            if let Some(need) = self.settled.pop() {
                put(self.is_settled.as_mut_slice(), need, false);
            }
        }
        self.levels.truncate(number);
        self.forget_queue();
    }

    // Takes back the last fact, and what it told.
    fn forget_fact(&mut self) {
        let Some(fact) = self.facts.pop() else {
            return;
        };
        let number = self.facts.len();
        self.reasons.truncate(fact.first);
        self.forget_edge(number);
        match fact.rule {
            Rule::Source(place, _)
            | Rule::Supposed(Assumption::Present(place) | Assumption::Absent(place)) => {
                self.forget_presence(place, number)
            }
            Rule::Needless(_, way) | Rule::TooMany(_, _, way) | Rule::TooFew(_, _, way) => put(
                self.excluded.as_mut_slice(),
                way,
                None,
            ),
            Rule::Found(_, state) => self.forget_state(state),
            Rule::Refuted(assumption, refutation) => {
                self.refutations.truncate(refutation);
                self.forget_refuted(assumption, number);
            }
            _ => {}
        }
    }

    // Takes back the last edge, if it was told by a fact.
    fn forget_edge(&mut self, fact: usize) {
        let Some(last) = self.edges.pop() else {
            return;
        };
        if last.fact == fact {
            put(self.last_edge.as_mut_slice(), last.from, last.next);
        } else {
            // There was room for it before.
            let _ = self.edges.push(last);
        }
    }

    // Takes back that a transaction is there or not, if a fact told it.
    fn forget_presence(&mut self, place: usize, fact: usize) {
        let is_by = match self.presence_of(place) {
            Presence::Present(by) | Presence::Absent(by) => by == fact,
            Presence::Committed | Presence::Open => false,
        };
        if is_by {
            put(self.presence.as_mut_slice(), place, Presence::Open);
        }
    }

    // Takes back the contrary of what was supposed.
    fn forget_refuted(&mut self, assumption: Assumption, fact: usize) {
        if let Assumption::Present(place) | Assumption::Absent(place) = assumption {
            self.forget_presence(place, fact);
        }
    }

    // Takes back what was found, by its number, which is the last.
    fn forget_state(&mut self, number: usize) {
        if let Some(state) = self.states.get(number) {
            let (visit, next) = (state.sight.visit, state.next);
            put(self.last_state.as_mut_slice(), visit, next);
        }
        self.states.truncate(number);
    }
}

// Whether each transaction is known to have committed.
fn first_presence<A: Allocator + Copy>(
    alloc: A,
    history: &History<A>,
) -> Result<Vec<Presence, A>, Refusal>
    ensures { IfErr result (λ e. e ≡ out_of_memory) }
{
    let mut presence = Vec::new(alloc);
    for place in 0..history.times.count() {
        presence.push(if history.times.is_committed(place) {
            Presence::Committed
        } else {
            Presence::Open
        })?;
    }
    Ok(presence)
}
