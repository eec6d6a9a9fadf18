// How often numbers are operands.
ghost use Rattle.std.specs.Prelude.{◌≡◌, ℕ, ◌<◌, ◌≤◌, ◌+◌, ◌==◌, ◌&&◌, if◌then◌else◌, true, length, slice_index_or};
ghost use Rattle.fixed_ops.specs.Arity.{arity_of};
ghost use Rattle.solid_model.specs.Tables.{row_uses};

use crate::row::Row;
use fixed_ops::arity;

// Counts the operands of a row.
pub(crate) fn count_operands(uses: &mut Vec<u32>, row: &Row)
    requires first { 0 < arity_of row.now.op → row.now.a < length uses.old.items }
    requires second { 1 < arity_of row.now.op → row.now.b < length uses.old.items }
    requires few { (n : ℕ) → n < length uses.old.items
        → slice_index_or uses.old.items n 0 ≤ 131070 }
    ensures len { length uses.new.items ≡ length uses.old.items }
    ensures each { (n : ℕ) → n < length uses.old.items
        → slice_index_or uses.new.items n 0
        ≡ slice_index_or uses.old.items n 0 + row_uses n row.now }
{
    let operands = arity(row.op);
    count_one(uses, row.a, operands >= 1);
    count_one(uses, row.b, operands >= 2);
}

// Takes the operands of a row from their counts.
pub(crate) fn uncount_operands(uses: &mut Vec<u32>, row: &Row)
    requires first { 0 < arity_of row.now.op → row.now.a < length uses.old.items }
    requires second { 1 < arity_of row.now.op → row.now.b < length uses.old.items }
    requires counted { (n : ℕ) → n < length uses.old.items
        → row_uses n row.now ≤ slice_index_or uses.old.items n 0 }
    ensures len { length uses.new.items ≡ length uses.old.items }
    ensures each { (n : ℕ) → n < length uses.old.items
        → slice_index_or uses.new.items n 0 + row_uses n row.now
        ≡ slice_index_or uses.old.items n 0 }
{
    let operands = arity(row.op);
    uncount_one(uses, row.a, operands >= 1);
    uncount_one(uses, row.b, operands >= 2);
}

// Counts an operand that is there.
#[inline]
fn count_one(uses: &mut Vec<u32>, number: u16, there: bool)
    requires within { there ≡ true → number < length uses.old.items }
    requires few { (n : ℕ) → n < length uses.old.items
        → slice_index_or uses.old.items n 0 ≤ 131071 }
    ensures len { length uses.new.items ≡ length uses.old.items }
    ensures each { (n : ℕ) → n < length uses.old.items → slice_index_or uses.new.items n 0
        ≡ slice_index_or uses.old.items n 0 + (if there && number == n then 1 else 0) }
{
    if there {
        uses[number as usize] += 1;
    }
}

// Takes an operand that is there from its count.
#[inline]
fn uncount_one(uses: &mut Vec<u32>, number: u16, there: bool)
    requires within { there ≡ true → number < length uses.old.items }
    requires counted { there ≡ true → 0 < slice_index_or uses.old.items number 0 }
    ensures len { length uses.new.items ≡ length uses.old.items }
    ensures each { (n : ℕ) → n < length uses.old.items → slice_index_or uses.new.items n 0
        + (if there && number == n then 1 else 0) ≡ slice_index_or uses.old.items n 0 }
{
    if there {
        uses[number as usize] -= 1;
    }
}
