// Words that move within lent words: a run to the right, a run to the left, and a run that becomes 0. No rows here.
ghost use Rattle.std.specs.Prelude.{◌≡◌, ◌+◌, ◌≤◌, length};
ghost use Rattle.board.specs.Slides.{slid_right, slid_left, zeroed};

// The words from p up to e move w to the right, over what was there.
pub(crate) fn slide_right(s: &mut [u64], p: usize, e: usize, w: usize)
    requires { (p ≤ e) × (e + w ≤ length s.old) }
    ensures { s.new ≡ slid_right s.old p e w }
{
    s.copy_within(p..e, p + w);
}

// The n words from p + w move w to the left.
pub(crate) fn slide_left(s: &mut [u64], p: usize, n: usize, w: usize)
    requires { p + w + n ≤ length s.old }
    ensures { s.new ≡ slid_left s.old p n w }
{
    s.copy_within(p + w..p + w + n, p);
}

// The n words from p become 0.
pub(crate) fn clear(s: &mut [u64], p: usize, n: usize)
    requires { p + n ≤ length s.old }
    ensures { s.new ≡ zeroed s.old p n }
{
    s[p..p + n].fill(0);
}
