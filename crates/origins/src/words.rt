// The origin in the upper bits of a word, whose 46 lower bits are another's.
ghost use Rattle.std.specs.Prelude.{◌≡◌};
ghost use Rattle.origins.specs.Words.{origin_in, with_origin, first_kept};

pub fn origin_in(word: u64) -> u64
    ensures { result ≡ origin_in word }
{
    word / 70368744177664 % 2048
}

fn with_origin(word: u64, line: u64) -> u64
    ensures { result ≡ with_origin word line }
{
    word % 70368744177664 + 70368744177664 * (line % 1024 + 1)
}

// "A node that comes up again keeps its first origin."
pub fn first_kept(word: u64, line: u64) -> u64
    ensures { result ≡ first_kept word line }
{
    if origin_in(word) == 0 {
        return with_origin(word, line);
    }
    word
}
