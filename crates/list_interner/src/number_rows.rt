//! Lists of numbers, one after another.
ghost use Rattle.std.specs.Prelude.{◌≡◌, ◌++◌, ◌∷◌, [], ℕ, ◌≤◌, ◌<◌, length, get_or, Contains, IfOk, IfSome, OnOk, OnErr};
ghost use Rattle.std.proofs.Props.{props};
ghost use Rattle.list_interner.specs.declared.number_rows.Row.TheVariants.{Part};
ghost use Rattle.list_interner.specs.Numbered.{Grows};
ghost use Rattle.list_interner.specs.Writes.{Writes};

use std::alloc::{AllocError, Global};

/// A list: its two numbers, or where its numbers are, from one index up to another.
#[derive(Clone, Copy)]
enum Row {
    Two(u32, u32),
    Part(u32, u32),
}

/// Lists of numbers. One that was added as two is in its row; the numbers of the others are one after another in one vector.
/// There may be very many, so a number has 32 bits.
pub struct NumberRows {
    numbers: Vec<u32>,
    rows: Vec<Row>,
    ghost within: { (start end : ℕ) → Contains rows.items (Part start end) → (start ≤ end) × (end ≤ length numbers.items) } by { Prim.hlevel props },
}

impl Drop for NumberRows {
    fn drop(self) {
        let NumberRows {
            numbers: _,
            rows: _,
        } = self;
    }
}

/// A number in 32 bits. If it is 2^32 or more, it fails as if memory were refused.
pub fn short(number: usize) -> Result<u32, AllocError>
    ensures { IfOk result (λ n. n ≡ number) }
{
    u32::try_from(number).map_err(|_| AllocError)
}

/// Appends more numbers, or only some of them if memory is refused.
fn write(numbers: &mut Vec<u32>, more: &[usize]) -> Result<(), AllocError>
    ensures written { OnOk result (numbers.new.items ≡ numbers.old.items ++ more.now) }
    ensures grows { Grows numbers.old.items numbers.new.items }
{
    for number in more {
        numbers.push(short(*number)?)?;
    }
    Ok(())
}

/// Appends the first numbers, and then the further ones. Returns where they are.
fn write_both(numbers: &mut Vec<u32>, first: &[usize], further: &[usize]) -> Result<Row, AllocError>
    ensures written { IfOk result (λ row. Writes numbers.old.items (first.now ++ further.now) numbers.new.items row) }
    ensures grows { Grows numbers.old.items numbers.new.items }
{
    let start = short(numbers.len())?;
    write(numbers, first)?;
    write(numbers, further)?;
    let end = short(numbers.len())?;
    Ok(Row::Part(start, end))
}

impl NumberRows {
    ghost use Rattle.list_interner.specs.NumberRows.{rows_of};

    /// No lists.
    pub fn new(alloc: Global) -> NumberRows
        ensures { rows_of result ≡ [] }
    {
        NumberRows {
            numbers: Vec::new(alloc),
            rows: Vec::new(alloc),
        }
    }

    /// How many lists there are.
    pub fn len(&self) -> usize
        ensures { result ≡ length (rows_of self.now) }
    {
        self.rows.len()
    }

    /// Adds a list: the first numbers and then the further ones.
    pub fn push(&mut self, first: &[usize], further: &[usize]) -> Result<(), AllocError>
        ensures pushed { OnOk result (rows_of self.new ≡ rows_of self.old ++ (first.now ++ further.now) ∷ []) }
        ensures refused { OnErr result (rows_of self.new ≡ rows_of self.old) }
    {
        let row = write_both(&mut self.numbers, first, further)?;
        self.rows.push(row)?;
        Ok(())
    }

    /// Adds a list of two numbers.
    pub fn push_two(&mut self, one: usize, other: usize) -> Result<(), AllocError>
        ensures pushed { OnOk result (rows_of self.new ≡ rows_of self.old ++ (one ∷ other ∷ []) ∷ []) }
        ensures refused { OnErr result (rows_of self.new ≡ rows_of self.old) }
    {
        self.rows.push(Row::Two(short(one)?, short(other)?))?;
        Ok(())
    }

    /// Makes `numbers` the list at an index.
    pub fn read(&self, place: usize, numbers: &mut Vec<usize>) -> Result<(), AllocError>
        requires { place < length (rows_of self.now) }
        ensures { OnOk result (numbers.new.items ≡ get_or (rows_of self.now) place []) }
    {
        numbers.clear();
        let row = self.rows[place];
        match row {
            Row::Two(one, other) => {
                numbers.push(one as usize)?;
                numbers.push(other as usize)?;
            }
            Row::Part(start, end) => {
                for number in &self.numbers[start as usize..end as usize] {
                    numbers.push(*number as usize)?;
                }
            }
        }
        Ok(())
    }

    /// The numbers of the list at an index, if it was added as one of two.
    pub fn two_at(&self, place: usize) -> Option<(usize, usize)>
        requires { place < length (rows_of self.now) }
        ensures { IfSome result (λ two. get_or (rows_of self.now) place [] ≡ two.0 ∷ two.1 ∷ []) }
    {
        match self.rows[place] {
            Row::Two(one, other) => Some((one as usize, other as usize)),
            Row::Part(_, _) => None,
        }
    }
}
