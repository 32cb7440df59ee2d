// Text put into the bytes of a sheet, after those that it has.
ghost use Rattle.std.specs.Prelude.{◌+◌, ◌≤◌, ◌<◌, ◌≡◌, [], ◌∷◌, length};
ghost use Rattle.report.specs.Text.{digit, decimal};
ghost use Rattle.report.specs.Printing.{Put};

use crate::sheet::Sheet;

fn ascii(n: u32) -> u8
    requires { n < 10 }
    ensures { result ≡ digit n }
{
    b'0' + n as u8
}

impl Sheet {
    pub(crate) fn put(&mut self, text: &[u8])
        requires { self.old.length + length text.now ≤ 5041 }
        ensures { Put self.old.bytes self.old.length text.now self.new.bytes self.new.length }
    {
        let end = self.length + text.len();
        self.bytes[self.length..end].copy_from_slice(text);
        self.length = end;
    }

    fn put_digit(&mut self, n: u32)
        requires { (n < 10) × (self.old.length < 5041) }
        ensures { Put self.old.bytes self.old.length (digit n ∷ []) self.new.bytes self.new.length }
    {
        self.bytes[self.length] = ascii(n);
        self.length += 1;
    }

    // A number in decimal.
    #[tactic(auto, using(crate::proofs::Decimal::decimal_filled, crate::proofs::Decimal::decimal_longer))]
    pub(crate) fn put_number(&mut self, n: u32)
        requires { self.old.length + length (decimal n) ≤ 5041 }
        ensures { Put self.old.bytes self.old.length (decimal n) self.new.bytes self.new.length }
    {
        if n < 10 {
            return self.put_digit(n);
        }
        self.put_number(n / 10);
        self.put_digit(n % 10);
    }
}
