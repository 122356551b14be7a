// Runs the calendar and the number fields over many inputs, and prints what they answer: the paper's cases 1 to 9 and 11, each year's
// dates, every day of the bounds, every second of a day, and each spelling of a field that stands on standard input.
// What it must print is made by tests/fields.py, out of Python's own dates, its regular expressions and its whole numbers; the
// spellings too. It shares no code with this.
#![tactic(auto)]

mod cases;
mod days;
mod print;
mod spellings;

fn main(rt: HostRuntime) {
    cases::all(&rt);
    days::all(&rt);
    spellings::all(&rt);
}
