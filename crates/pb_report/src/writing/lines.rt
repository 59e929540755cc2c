//! Adding the lines of a report.
ghost use Rattle.std.specs.Prelude.{◌≡◌, ◌++◌};
ghost use Rattle.std.specs.Fmt.{signed_decimal};
ghost use Rattle.pb_report.specs.Sending.{Adds};
ghost use Rattle.pb_report.specs.Written.{line, kind_name, fault_text, refusal_text, cost_line, sign, ending, literals, value_line};

use crate::ends::Refusal;
use crate::writing::writer::Report;
use itoa::{Buffer, Integer};
use pb_inst::{Assignment, Number};
use pb_read::{Format, ReadFault, ReadKind};
use std::io::Write;

impl<W: Write> Report<'_, W> {
    /// Adds a text and the line's end.
    pub(crate) fn put_line(&mut self, text: &[u8])
        ensures { Adds W.contents self.old self.new (line text.now) }
    {
        self.put(text);
        self.put(b"\n");
    }

    /// Adds the line that tells what was refused, and why.
    pub(crate) fn put_refusal(&mut self, refusal: Refusal)
        ensures { Adds W.contents self.old self.new (line (refusal_text refusal)) }
    {
        match refusal {
            Refusal::Input(fault) => self.put_fault(b"c refused: ", fault),
            Refusal::Cubes(fault) => self.put_fault(b"c refused cubes: ", fault),
            Refusal::Split => self.put_line(b"c refused split: BadSplit"),
            Refusal::TooManyCubes => self.put_line(b"c refused cubes: TooMany"),
        }
    }

    /// Adds the line of the values of all variables.
    pub(crate) fn put_values(&mut self, format: Format, values: &Assignment)
        ensures { Adds W.contents self.old self.new (value_line format values.now) }
    {
        self.put(b"v");
        self.put_literals(format, values);
        self.put_line(ending_of(format));
    }

    fn put_literals(&mut self, format: Format, values: &Assignment)
        ensures { Adds W.contents self.old self.new (literals format 1 values.now) }
    {
        for place in 0..values.len() {
            let var = place + 1;
            self.put(sign_of(format, values.get(var)));
            self.put_number(var);
        }
    }

    /// Adds the `o` line of the cost.
    pub(crate) fn put_cost(&mut self, cost: Number)
        ensures { Adds W.contents self.old self.new (cost_line cost) }
    {
        self.put(b"o ");
        self.put_number(cost);
        self.put(b"\n");
    }

    fn put_fault(&mut self, what: &[u8], fault: ReadFault)
        ensures { Adds W.contents self.old self.new (line (what.now ++ fault_text fault)) }
    {
        self.put(what);
        self.put(name_of(fault.kind));
        self.put(b" at line ");
        self.put_number(fault.line);
        self.put(b"\n");
    }

    fn put_number<I: Integer>(&mut self, number: I)
        ensures { Adds W.contents self.old self.new (I.text number) }
    {
        self.put(Buffer::new().format(number).as_bytes());
    }
}

fn name_of(kind: ReadKind) -> &'static [u8]
    ensures { result.now ≡ kind_name kind }
{
    match kind {
        ReadKind::Unfinished => b"Unfinished",
        ReadKind::Syntax => b"Syntax",
        ReadKind::NonLinear => b"NonLinear",
        ReadKind::LateObjective => b"LateObjective",
        ReadKind::BadVariable => b"BadVariable",
        ReadKind::TooLarge => b"TooLarge",
        ReadKind::TooMany => b"TooMany",
        ReadKind::BadHeader => b"BadHeader",
        ReadKind::TooFewClauses => b"TooFewClauses",
        ReadKind::TooManyClauses => b"TooManyClauses",
        ReadKind::ClauseAfterCube => b"ClauseAfterCube",
        ReadKind::Memory => b"Memory",
    }
}

fn sign_of(format: Format, value: bool) -> &'static [u8]
    ensures { result.now ≡ sign format value }
{
    format.literal_prefix(value)
}

fn ending_of(format: Format) -> &'static [u8]
    ensures { result.now ≡ ending format }
{
    format.ending()
}
