//! The formats' names.
ghost use Rattle.std.specs.Prelude.{◌≡◌, ◌≢◌, IfSome, IsNone};
ghost use Rattle.pb_read.specs.Format.{format_name};

use pb_read::Format;

/// The format of this name, if a format has it: `opb`, `cnf` or `icnf`.
pub fn format_of(name: &str) -> Option<Format>
    ensures some { IfSome result (λ format. name.now ≡ format_name format) }
    ensures none { IsNone result → (format : Format) → name.now ≢ format_name format }
{
    match name {
        "opb" => Some(Format::Opb),
        "cnf" => Some(Format::Cnf),
        "icnf" => Some(Format::Icnf),
        _ => None,
    }
}
