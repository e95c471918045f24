//! Ways: what a run of a transaction may do to the row of a key.

ghost use Rattle.std.specs.Prelude.{◌≡◌, ◌++◌, ◌∷◌, [], replicate, if◌then◌else◌, OnOk, IfOk, IfErr};
ghost use Rattle.value.specs.Refusals.{out_of_memory};
ghost use Rattle.orders.specs.Symbolic as spec;

use statement::condition::Condition;
use std::alloc::{Allocator, Global};
use std::marker::Model;
use value::refusal::Refusal;
use value::value::Value;

/// What is asked of the row that was there before: whether it meets a condition on one column. That a column was found
/// to have a value is an equality that holds; that it was found null, that it is null.
pub struct Atom<A: Allocator = Global> {
    pub condition: Condition<A>,
    pub truth: bool,
}

impl<A: Allocator> Drop for Atom<A> {
    fn drop(self) {
        let Atom {
            condition: _,
            truth: _,
        } = self;
    }
}

impl<A: Allocator> Atom<A> {
    /// An equal atom.
    pub fn copy(&self, alloc: A) -> Result<Atom<A>, Refusal>
    where
        A: Copy,
        ensures ok { IfOk result (λ a. a ≡ self.now) }
        ensures err { IfErr result (λ e. e ≡ out_of_memory) }
    {
        Ok(Atom {
            condition: self.condition.copy(alloc)?,
            truth: self.truth,
        })
    }
}

/// All that is asked of the row that was there before.
pub struct Atoms<A: Allocator = Global> {
    atoms: Vec<Atom<A>, A>,
}

impl<A: Allocator> Drop for Atoms<A> {
    fn drop(self) {
        let Atoms { atoms: _ } = self;
    }
}

impl<A: Allocator> Model for Atoms<A> {
    ghost use Rattle.std.specs.Prelude.{List};
    ghost use Rattle.orders.specs.declared.ways.way.Atom.{Atom};

    ghost Value = { List (Atom A) };

    ghost view = { λ l. l.atoms.items };
}

impl<A: Allocator> Atoms<A> {
    /// These atoms.
    pub fn of(atoms: Vec<Atom<A>, A>) -> Atoms<A>
        ensures { result ≡ atoms.items }
    {
        Atoms { atoms }
    }

    /// The atoms, in the order in which they were asked.
    pub fn as_slice(&self) -> &[Atom<A>]
        ensures { result.now ≡ self.now }
    {
        self.atoms.as_slice()
    }

    /// Equal atoms.
    pub fn copy(&self, alloc: A) -> Result<Atoms<A>, Refusal>
    where
        A: Copy,
        ensures ok { IfOk result (λ l. l ≡ self.now) }
        ensures err { IfErr result (λ e. e ≡ out_of_memory) }
    {
        let mut atoms = Vec::new(alloc);
        push_atoms(alloc, self.atoms.as_slice(), &mut atoms)?;
        Ok(Atoms { atoms })
    }

    /// These atoms and more.
    pub fn with(&self, alloc: A, more: &[Atom<A>]) -> Result<Atoms<A>, Refusal>
    where
        A: Copy,
        ensures ok { IfOk result (λ l. l ≡ self.now ++ more.now) }
        ensures err { IfErr result (λ e. e ≡ out_of_memory) }
    {
        let mut atoms = Vec::new(alloc);
        push_atoms(alloc, self.atoms.as_slice(), &mut atoms)?;
        push_atoms(alloc, more, &mut atoms)?;
        Ok(Atoms { atoms })
    }
}

// Puts in copies of atoms.
fn push_atoms<A: Allocator + Copy>(
    alloc: A,
    atoms: &[Atom<A>],
    list: &mut Vec<Atom<A>, A>,
) -> Result<(), Refusal>
    ensures ok { OnOk result (list.new.items ≡ list.old.items ++ atoms.now) }
    ensures err { IfErr result (λ e. e ≡ out_of_memory) }
{
    match atoms {
        [] => Ok(()),
        [atom, rest @ ..] => {
            list.push(atom.copy(alloc)?)?;
            push_atoms(alloc, rest, list)
        }
    }
}

/// What a column has afterwards.
pub enum Field<A: Allocator = Global> {
    /// What it had.
    Kept,
    Given(Value<A>),
    /// What a column, counted from 0, had before, and a number added to it; null where that was null.
    Sum(u32, i64),
    /// Nothing is known of it.
    Anything,
}

impl<A: Allocator> Drop for Field<A> {
    fn drop(self) {
        match self {
            Field::Kept | Field::Given(_) | Field::Sum(_, _) | Field::Anything => {}
        }
    }
}

impl<A: Allocator> Field<A> {
    /// An equal field.
    pub fn copy(&self, alloc: A) -> Result<Field<A>, Refusal>
        ensures ok { IfOk result (λ f. f ≡ self.now) }
        ensures err { IfErr result (λ e. e ≡ out_of_memory) }
    {
        Ok(match self {
            Field::Kept => Field::Kept,
            Field::Given(value) => Field::Given(value.copy(alloc)?),
            Field::Sum(column, number) => Field::Sum(*column, *number),
            Field::Anything => Field::Anything,
        })
    }
}

/// What the columns beside the key have afterwards.
pub struct Fields<A: Allocator = Global> {
    fields: Vec<Field<A>, A>,
}

impl<A: Allocator> Drop for Fields<A> {
    fn drop(self) {
        let Fields { fields: _ } = self;
    }
}

impl<A: Allocator> Model for Fields<A> {
    ghost use Rattle.std.specs.Prelude.{List};
    ghost use Rattle.orders.specs.declared.ways.way.Field.{Field};

    ghost Value = { List (Field A) };

    ghost view = { λ l. l.fields.items };
}

impl<A: Allocator> Fields<A> {
    /// These fields.
    pub fn of(fields: Vec<Field<A>, A>) -> Fields<A>
        ensures { result ≡ fields.items }
    {
        Fields { fields }
    }

    /// So many fields that keep what they had.
    pub fn kept(alloc: A, count: usize) -> Result<Fields<A>, Refusal>
        ensures ok { IfOk result (λ l. l ≡ replicate count Field.Kept) }
        ensures err { IfErr result (λ e. e ≡ out_of_memory) }
    {
        let mut fields = Vec::new(alloc);
        for place in 0..count {
            fields.push(Field::Kept)?;
        }
        Ok(Fields { fields })
    }

    /// The fields, from the first column beside the key on.
    pub fn as_slice(&self) -> &[Field<A>]
        ensures { result.now ≡ self.now }
    {
        self.fields.as_slice()
    }

    /// Equal fields, in a list of their own.
    pub fn copy_list(&self, alloc: A) -> Result<Vec<Field<A>, A>, Refusal>
    where
        A: Copy,
        ensures ok { IfOk result (λ l. l.items ≡ self.now) }
        ensures err { IfErr result (λ e. e ≡ out_of_memory) }
    {
        copy_fields(alloc, self.fields.as_slice())
    }
}

// Equal fields.
fn copy_fields<A: Allocator + Copy>(
    alloc: A,
    fields: &[Field<A>],
) -> Result<Vec<Field<A>, A>, Refusal>
    ensures ok { IfOk result (λ copy. copy.items ≡ fields.now) }
    ensures err { IfErr result (λ e. e ≡ out_of_memory) }
{
    let mut copy = Vec::with_capacity(alloc, fields.len())?;
    for field in fields {
        copy.push(field.copy(alloc)?)?;
    }
    Ok(copy)
}

/// What is there afterwards.
pub enum After<A: Allocator = Global> {
    /// No row of the key.
    Gone,
    /// A row, with these fields beside its key.
    Row(Fields<A>),
    /// A row or none, nothing is known of it.
    Anything,
}

impl<A: Allocator> Drop for After<A> {
    fn drop(self) {
        match self {
            After::Gone | After::Row(_) | After::Anything => {}
        }
    }
}

impl<A: Allocator> After<A> {
    /// Whether there is no row.
    pub fn is_gone(&self) -> bool
        ensures { result ≡ spec.is_gone self.now }
    {
        matches!(self, After::Gone)
    }

    /// Whether there is a row of which something is known.
    pub fn is_row(&self) -> bool
        ensures { result ≡ spec.is_row self.now }
    {
        matches!(self, After::Row(_))
    }

    // What is afterwards, unless anything may have been done.
    fn unless(&self, alloc: A, is_written: bool) -> Result<After<A>, Refusal>
    where
        A: Copy,
        ensures ok { IfOk result (λ r. r ≡ (if is_written then After.Anything else self.now)) }
        ensures err { IfErr result (λ e. e ≡ out_of_memory) }
    {
        if is_written {
            Ok(After::Anything)
        } else {
            self.copy(alloc)
        }
    }

    /// What is there afterwards, with memory of its own.
    pub fn copy(&self, alloc: A) -> Result<After<A>, Refusal>
    where
        A: Copy,
        ensures ok { IfOk result (λ r. r ≡ self.now) }
        ensures err { IfErr result (λ e. e ≡ out_of_memory) }
    {
        Ok(match self {
            After::Gone => After::Gone,
            After::Row(fields) => After::Row(Fields::of(fields.copy_list(alloc)?)),
            After::Anything => After::Anything,
        })
    }
}

/// Statements, by their numbers, counted from 0.
pub struct Numbers<A: Allocator = Global> {
    numbers: Vec<usize, A>,
}

impl<A: Allocator> Drop for Numbers<A> {
    fn drop(self) {
        let Numbers { numbers: _ } = self;
    }
}

impl<A: Allocator> Model for Numbers<A> {
    ghost use Rattle.std.specs.Prelude.{List, ℕ};

    ghost Value = { List ℕ };

    ghost view = { λ l. l.numbers.items };
}

impl<A: Allocator> Numbers<A> {
    /// No number.
    pub fn new(alloc: A) -> Numbers<A>
        ensures { result ≡ [] }
    {
        Numbers {
            numbers: Vec::new(alloc),
        }
    }

    /// The numbers, in rising order.
    pub fn as_slice(&self) -> &[usize]
        ensures { result.now ≡ self.now }
    {
        self.numbers.as_slice()
    }

    /// The same numbers.
    pub fn copy(&self, alloc: A) -> Result<Numbers<A>, Refusal>
        ensures ok { IfOk result (λ l. l ≡ self.now) }
        ensures err { IfErr result (λ e. e ≡ out_of_memory) }
    {
        let numbers = copy_numbers(alloc, self.numbers.as_slice())?;
        Ok(Numbers { numbers })
    }

    /// These numbers and one more.
    pub fn with(&self, alloc: A, number: usize) -> Result<Numbers<A>, Refusal>
        ensures ok { IfOk result (λ l. l ≡ self.now ++ number ∷ []) }
        ensures err { IfErr result (λ e. e ≡ out_of_memory) }
    {
        let mut numbers = copy_numbers(alloc, self.numbers.as_slice())?;
        numbers.push(number)?;
        Ok(Numbers { numbers })
    }
}

// The same numbers.
fn copy_numbers<A: Allocator>(alloc: A, numbers: &[usize]) -> Result<Vec<usize, A>, Refusal>
    ensures ok { IfOk result (λ copy. copy.items ≡ numbers.now) }
    ensures err { IfErr result (λ e. e ≡ out_of_memory) }
{
    let mut copy = Vec::with_capacity(alloc, numbers.len())?;
    for number in numbers {
        copy.push(*number)?;
    }
    Ok(copy)
}

/// One thing that a run of a transaction may do to the row of a key.
pub struct Way<A: Allocator = Global> {
    /// Whether there is no row before.
    pub is_absent: bool,
    /// What is asked of the row before, where there is one.
    pub atoms: Atoms<A>,
    pub after: After<A>,
    /// In which statements that name no single key the row is among those chosen.
    pub counted: Numbers<A>,
    /// In which of these it may be, or not. In all others it isn't.
    pub may_count: Numbers<A>,
}

impl<A: Allocator> Drop for Way<A> {
    fn drop(self) {
        let Way {
            is_absent: _,
            atoms: _,
            after: _,
            counted: _,
            may_count: _,
        } = self;
    }
}

impl<A: Allocator> Way<A> {
    /// There is no row, and nothing has been done.
    pub(crate) fn absent(alloc: A) -> Way<A>
    where
        A: Copy,
        ensures { result ≡ spec.absent_way }
    {
        Way {
            is_absent: true,
            atoms: Atoms::of(Vec::new(alloc)),
            after: After::Gone,
            counted: Numbers::new(alloc),
            may_count: Numbers::new(alloc),
        }
    }

    /// There is a row with so many fields beside its key, and nothing has been done.
    pub(crate) fn present(alloc: A, count: usize) -> Result<Way<A>, Refusal>
    where
        A: Copy,
        ensures ok { IfOk result (λ w. w ≡ spec.present_way count) }
        ensures err { IfErr result (λ e. e ≡ out_of_memory) }
    {
        Ok(Way {
            is_absent: false,
            atoms: Atoms::of(Vec::new(alloc)),
            after: After::Row(Fields::kept(alloc, count)?),
            counted: Numbers::new(alloc),
            may_count: Numbers::new(alloc),
        })
    }

    /// This way, with more asked.
    pub(crate) fn asking(&self, alloc: A, more: &[Atom<A>]) -> Result<Way<A>, Refusal>
    where
        A: Copy,
        ensures ok { IfOk result (λ w. w ≡ spec.asking self.now more.now) }
        ensures err { IfErr result (λ e. e ≡ out_of_memory) }
    {
        Ok(Way {
            is_absent: self.is_absent,
            atoms: self.atoms.with(alloc, more)?,
            after: self.after.copy(alloc)?,
            counted: self.counted.copy(alloc)?,
            may_count: self.may_count.copy(alloc)?,
        })
    }

    /// An equal way.
    pub fn copy(&self, alloc: A) -> Result<Way<A>, Refusal>
    where
        A: Copy,
        ensures ok { IfOk result (λ w. w ≡ self.now) }
        ensures err { IfErr result (λ e. e ≡ out_of_memory) }
    {
        self.with_after(alloc, self.after.copy(alloc)?)
    }

    /// This way, with something else afterwards.
    pub(crate) fn with_after(&self, alloc: A, after: After<A>) -> Result<Way<A>, Refusal>
    where
        A: Copy,
        ensures ok { IfOk result (λ w. w ≡ record self.now { after = after }) }
        ensures err { IfErr result (λ e. e ≡ out_of_memory) }
    {
        Ok(Way {
            is_absent: self.is_absent,
            atoms: self.atoms.copy(alloc)?,
            after,
            counted: self.counted.copy(alloc)?,
            may_count: self.may_count.copy(alloc)?,
        })
    }

    /// This way, counted in one statement more.
    pub(crate) fn counting(&self, alloc: A, number: usize) -> Result<Way<A>, Refusal>
    where
        A: Copy,
        ensures ok { IfOk result (λ w. w ≡ spec.counting number self.now) }
        ensures err { IfErr result (λ e. e ≡ out_of_memory) }
    {
        Ok(Way {
            is_absent: self.is_absent,
            atoms: self.atoms.copy(alloc)?,
            after: self.after.copy(alloc)?,
            counted: self.counted.with(alloc, number)?,
            may_count: self.may_count.copy(alloc)?,
        })
    }

    /// What is known after one statement more that may have chosen the row or not, and done anything to it if it writes.
    pub(crate) fn coarse(&self, alloc: A, number: usize, writes: bool) -> Result<Way<A>, Refusal>
    where
        A: Copy,
        ensures ok { IfOk result (λ w. w ≡ spec.after_unread number writes self.now) }
        ensures err { IfErr result (λ e. e ≡ out_of_memory) }
    {
        let after = self.after.unless(alloc, writes)?;
        Ok(Way {
            is_absent: self.is_absent,
            atoms: self.atoms.copy(alloc)?,
            after,
            counted: self.counted.copy(alloc)?,
            may_count: self.may_count.with(alloc, number)?,
        })
    }
}
