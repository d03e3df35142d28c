// Words that need no gate: literals are copied, or the same one is put at each place.
ghost use Rattle.std.specs.Prelude.{◌≡◌, ◌+◌, ◌≤◌, length, get_or};
ghost use Rattle.gates_words.specs.Words.{Puts};

// The w literals at `from`, at `out`.
pub fn copy(bits: &mut [u64], from: usize, out: usize, w: usize)
    requires { (from + w ≤ out) × (out + w ≤ length bits.old) }
    ensures { Puts bits.old bits.new out w (λ j. get_or bits.old (from + j) 0) }
{
    bits.copy_within(from..from + w, out);
}

// One literal w times.
pub fn fill(bits: &mut [u64], literal: u64, out: usize, w: usize)
    requires { out + w ≤ length bits.old }
    ensures { Puts bits.old bits.new out w (λ j. literal) }
{
    bits[out..out + w].fill(literal);
}
