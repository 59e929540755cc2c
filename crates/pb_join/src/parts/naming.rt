//! Which pieces are named as done.
ghost use Rattle.std.specs.Prelude.{IfOk};
ghost use Rattle.pb_join.specs.Parts.{AreNamed};

use pb_parts::PartReport;
use std::alloc::{AllocError, Global};

/// The pieces that some report names as done, in rising order. More than one report may name the same piece.
pub(crate) fn named_pieces(alloc: Global, parts: &[PartReport]) -> Result<Vec<u32>, AllocError>
    ensures { IfOk result (λ named. AreNamed parts.now named.items) }
{
    let mut named = Vec::new(alloc);
    for part in parts {
        named.extend_from_slice(&part.heading.done)?;
    }
    named.sort_unstable();
    named.dedup();
    Ok(named)
}
