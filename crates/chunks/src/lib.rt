// Pieces: more bytes than the FIFO takes at once go over the bus piece by piece.
#![tactic(auto)]

ghost use Rattle.std.specs.Prelude.{◌≡◌};
ghost use Rattle.chunks.specs.Pieces.{piece_of, count_of, start_of};

// The length of the next piece when `remaining` bytes are left. The last piece but one is two bytes short where fewer than
// three bytes would be left for the last.
pub fn calculate_chunk_size(chunk: usize, remaining: usize) -> usize
    ensures { result ≡ piece_of chunk remaining }
{
    if remaining <= chunk {
        return remaining;
    }
    if remaining - chunk > 2 {
        return chunk;
    }
    if chunk < 2 {
        return 0;
    }
    chunk - 2
}

// How many pieces n bytes make. No bytes make one empty piece; a chunk size of 0 cuts nothing.
pub fn count_pieces(chunk: usize, n: usize) -> usize
    ensures { result ≡ count_of chunk n }
{
    if n == 0 {
        return 1;
    }
    if chunk == 0 {
        return 1;
    }
    (n - 1) / chunk + 1
}

// Where the j-th piece of n bytes starts, counted from 0; n beyond the last piece.
pub fn piece_start(chunk: usize, n: usize, j: usize) -> usize
    ensures { result ≡ start_of chunk n j }
{
    if count_pieces(chunk, n) <= j {
        return n;
    }
    let at = j * chunk;
    if n - at > 2 {
        return at;
    }
    if at < 2 {
        return 0;
    }
    at - 2
}
