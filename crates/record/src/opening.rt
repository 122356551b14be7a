// Lines 1 and 2, and the epoch lines.
ghost use Rattle.std.specs.Prelude.{◌≡◌};
ghost use Rattle.layout.specs.Layout.{values_of};
ghost use Rattle.record.specs.Times.{time_items, moment_at};
ghost use Rattle.record.specs.Opening.{text_items, texts_of, first_of, second_of, epoch_of};
ghost use Rattle.record.specs.Steps.{after_all};

use crate::fields;
use crate::fields::Judge;
use crate::types::{Epoch, First, Second};
use header::{Header, Moment, Rules, Texts};

impl<'a> Judge<'a> {
    // Columns 4 to 31: a date, which is judged by whoever reads the line, and a time.
    #[tactic(auto, unfolding(crate::specs::Steps::after))]
    fn moment(&mut self) -> Moment
        ensures judged { self.new ≡ after_all time_items self.old }
        ensures value { result ≡ moment_at (values_of time_items self.old.line.now) 0 }
    {
        let year = self.whole(0, 9999, 4, 4, 7);
        self.unused(8, 8);
        let month = self.whole(0, 99, 4, 9, 10);
        self.unused(11, 11);
        let day = self.whole(0, 99, 4, 12, 13);
        self.unused(14, 14);
        let hour = self.whole(0, 23, 15, 15, 16);
        self.unused(17, 17);
        let minute = self.whole(0, 59, 18, 18, 19);
        self.unused(20, 20);
        let second8 = self.decimal(8, 0, 5_999_999_999, 21, 31);
        Moment {
            year,
            month,
            day,
            hour,
            minute,
            second8,
        }
    }

    // Columns 41 to 80: the four texts, and the unused columns after each.
    #[tactic(auto, unfolding(crate::specs::Steps::after))]
    fn texts(&mut self) -> Texts
        ensures judged { self.new ≡ after_all text_items self.old }
        ensures value { result ≡ texts_of self.old.line.now }
    {
        self.unused(46, 46);
        self.unused(52, 52);
        self.unused(56, 56);
        self.unused(61, 80);
        Texts {
            data_used: fields::text(self.line, 41),
            coordinates: fields::text(self.line, 47),
            orbit: fields::text(self.line, 53),
            agency: fields::text(self.line, 57),
        }
    }
}

// Line 1: `#dv` is 6 at column 3, 100,001 epochs are 7 at column 33.
pub fn read_first(rules: Rules, line: &[u8; 80]) -> First
    ensures result { result ≡ first_of rules line.now }
{
    let mut judge = Judge::of(line);
    judge.symbols(b'#', rules.letter);
    let mode = judge.mode();
    let start = judge.moment();
    judge.unused(32, 32);
    let epochs = judge.whole(1, Header::MAX_EPOCHS, 33, 33, 39);
    judge.unused(40, 40);
    let texts = judge.texts();
    judge.date(start);
    First {
        fault: judge.fault,
        mode,
        start,
        epochs,
        texts,
    }
}

// Line 2: an interval of 0 is 7 at column 25.
pub fn read_second(line: &[u8; 80]) -> Second
    ensures result { result ≡ second_of line.now }
{
    let mut judge = Judge::of(line);
    judge.symbols(b'#', b'#');
    judge.unused(3, 3);
    let week = judge.whole(0, 9999, 4, 4, 7);
    judge.unused(8, 8);
    let seconds8 = judge.decimal(8, 0, 60_479_999_999_999, 9, 23);
    judge.unused(24, 24);
    let interval8 = judge.decimal(8, 1, 9_999_999_999_999, 25, 38);
    judge.unused(39, 39);
    let mjd = judge.whole(0, 99_999, 40, 40, 44);
    judge.unused(45, 45);
    let fraction13 = judge.decimal(13, 0, 9_999_999_999_999, 46, 60);
    judge.unused(61, 80);
    Second {
        fault: judge.fault,
        week,
        seconds8,
        interval8,
        mjd,
        fraction13,
    }
}

// An epoch line: a month of 13 is 7 at column 4.
pub fn read_epoch(line: &[u8; 80]) -> Epoch
    ensures result { result ≡ epoch_of line.now }
{
    let mut judge = Judge::of(line);
    judge.symbols(b'*', b' ');
    judge.unused(3, 3);
    let moment = judge.moment();
    judge.unused(32, 80);
    judge.date(moment);
    Epoch {
        fault: judge.fault,
        moment,
    }
}
