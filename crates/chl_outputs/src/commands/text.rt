ghost use Rattle.std.specs.Prelude.{◌≡◌, Ok, Err, MatchResult};
ghost use Rattle.chl_inputs.specs.declared.stop.Stop.TheVariants.{NoMemory};

use chl_inputs::Stop;
use index_file::Pieces;
use std::alloc::{AllocError, Global};

/// The bytes of a command that has a text. It takes the text as the call before gave it, so that a command has one branch less.
pub fn text_output(alloc: Global, text: Result<Vec<u8>, AllocError>) -> Result<Pieces, Stop>
    ensures { MatchResult text (λ t. result ≡ Ok t.items) (λ e. result ≡ Err NoMemory) }
{
    Ok(Pieces::one(alloc, text?))
}
