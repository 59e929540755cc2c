//! Handing the tokens of a text one by one to the reader of its statements.
ghost use Rattle.std.specs.Prelude.{◌≡◌, ◌∷◌, ◌++◌, [], List, OnOk, IfErr};
ghost use Rattle.pb_read.specs.Text.{Placed};
ghost use Rattle.pb_read.specs.Opb as opb;
ghost use Rattle.pb_read.specs.Capped.{capped};
ghost use Rattle.pb_read.specs.Reading.{Fails};

use crate::fault::ReadFault;
use crate::line::is_marked;
use crate::opb::token::{Token, next_token};
use bstr::ByteSlice;

/// What takes the tokens of a text in order.
pub(crate) trait TokenSink {
    /// The value after these tokens.
    ghost has_taken: { Self → List (Placed opb.Token) → Type 0 };

    /// Takes the next token. Fails where memory runs out, or with the fault that every text has that begins with these tokens.
    fn take(&mut self, token: Token, line: u64) -> Result<(), ReadFault>
        ensures ok { (taken : List (Placed opb.Token)) (t : opb.Token) → has_taken self.old taken → token ≡ capped t
            → OnOk result (has_taken self.new (taken ++ record { item = t; line = line } ∷ [])) }
        ensures err { (taken : List (Placed opb.Token)) (t : opb.Token) → has_taken self.old taken → token ≡ capped t
            → IfErr result (λ f. Fails (taken ++ record { item = t; line = line } ∷ []) f) };
}

/// Hands over the tokens of a line.
pub(crate) fn take_line<S: TokenSink>(
    sink: &mut S,
    line: &[u8],
    number: u64,
) -> Result<(), ReadFault>
    ensures ok { (taken : List (Placed opb.Token)) → S.has_taken sink.old taken
        → OnOk result (S.has_taken sink.new (taken ++ opb.placed number (opb.line_tokens line.now))) }
    ensures err { (taken : List (Placed opb.Token)) → S.has_taken sink.old taken
        → IfErr result (λ f. Fails (taken ++ opb.placed number (opb.line_tokens line.now)) f) }
{
    let mut rest = line;
    while let Some((token, after)) = next_token(rest) {
        sink.take(token, number)?;
        rest = after;
    }
    Ok(())
}

/// Hands over the tokens of a text to a sink that has taken none.
pub(crate) fn take_text<S: TokenSink>(sink: &mut S, text: &[u8]) -> Result<(), ReadFault>
    ensures ok { S.has_taken sink.old [] → OnOk result (S.has_taken sink.new (opb.tokens text.now)) }
    ensures err { S.has_taken sink.old [] → IfErr result (λ f. Fails (opb.tokens text.now) f) }
{
    let mut before: u64 = 0;
    for line in text.lines_with_terminator() {
        if !is_marked(b'*', line) {
            take_line(sink, line, before + 1)?;
        }
        before += 1;
    }
    Ok(())
}
