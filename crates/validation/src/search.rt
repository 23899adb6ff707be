// A search from the front.

ghost use Rattle.std.specs.Prelude.{Bool, ℕ, ◌≡◌, ◌<◌};
ghost use Rattle.lists.specs.Lists.{first_where, below};

// The indices that are asked together.
const BLOCK: usize = 4096;

// The first index below a count at which a test holds. Most often there is none, so it first asks block after block, in a
// loop that vectorizes, and looks for the index from the first block on that has one.
pub fn first_index<F: Fn(usize) -> bool>(count: usize, test: F) -> Option<usize>
    requires { (i : ℕ) → i < count → F.pre test i }
    ensures { (p : ℕ → Bool) → ((i : ℕ) (b : Bool) → i < count → F.post test i b → b ≡ p i) → result ≡ below count (first_where count p) }
{
    let mut start = 0;
    while start < count {
        let end = start + BLOCK.min(count - start);
        let mut some = false;
        for i in start..end {
            some |= test(i);
        }
        if some {
            break;
        }
        start = end;
    }
    for i in start..count {
        if test(i) {
            return Some(i);
        }
    }
    None
}
