//! How texts are hashed: in pieces.
ghost use Rattle.std.specs.Prelude.{◌≡◌, fold};
ghost use Rattle.graphql_names.specs.HashedText.{hashed_text};

use std::hash::Hasher;

/// How many bytes of a text are hashed at once. Of more, `FoldHasher` multiplies two halves, so that one of them can make the other
/// count for nothing.
const PIECE: usize = 8;

/// Hashes a text: its whole pieces, and then the rest, which is shorter and may be empty. What is hashed of one text never begins
/// what is hashed of another.
#[tactic(auto, using(crate::proofs::Pieces::fed_rest))]
pub fn hash_text<H: Hasher>(text: &str, state: &mut H)
    ensures { state.new ≡ fold H.write state.old (hashed_text text.now) }
{
    let mut left = text.as_bytes();
    'pieces: while left.len() >= PIECE {
        let (piece, rest) = left.split_at(PIECE);
        state.write(piece);
        left = rest;
    }
    state.write(left);
}
