// A table that was accepted: its layout, with the sizes in it, and that no fault applies (specs/Refusals.antt, `Legal`).
ghost use Rattle.table.specs.Refusals.{Legal};

use crate::edition::{Edition, layout};
use crate::format::{
    Entry, Literal, Pair, Rule, Sizes, read_entry, read_fact, read_pair, read_rule,
};
use crate::judge::{Refusal, judge};

#[derive(Clone, Copy)]
pub struct Table<'a> {
    pub layout: &'a [u8],
    pub sizes: Sizes,
    pub ghost legal: { Legal layout.now sizes },
}

impl<'a> Table<'a> {
    ghost use Rattle.std.specs.Prelude.{◌≡◌};
    ghost use Rattle.table.specs.Format.{fact_at, rule_at, entry_at, pair_at};
    ghost use Rattle.table.specs.Tables.{Opened};

    // A file that is judged.
    pub fn read(file: &'a [u8], edition: Edition) -> Result<Table<'a>, Refusal>
        ensures { Opened edition file.now result }
    {
        let sizes = judge(file, edition)?;
        let layout = layout(file, edition);
        Ok(Table { layout, sizes })
    }

    // The i-th fact.
    pub fn fact(self, i: usize) -> Literal
        ensures { result ≡ fact_at self.entry.layout.now self.entry.sizes i }
    {
        read_fact(self.layout, self.sizes, i)
    }

    // Rule r, without its body.
    pub fn rule(self, r: usize) -> Rule
        ensures { result ≡ rule_at self.entry.layout.now self.entry.sizes r }
    {
        read_rule(self.layout, self.sizes, r)
    }

    // The i-th entry.
    pub fn entry(self, i: usize) -> Entry
        ensures { result ≡ entry_at self.entry.layout.now self.entry.sizes i }
    {
        read_entry(self.layout, self.sizes, i)
    }

    // The i-th pair.
    pub fn pair(self, i: usize) -> Pair
        ensures { result ≡ pair_at self.entry.layout.now self.entry.sizes i }
    {
        read_pair(self.layout, self.sizes, i)
    }
}
