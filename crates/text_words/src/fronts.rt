// What a text begins with.
ghost use Rattle.std.specs.Prelude.{◌≡◌, ◌≤◌, length, take, drop, Some, None, MatchOption};
ghost use Rattle.text_words.specs.Fronts.{behind, begins};

/// What stands behind a front.
pub fn behind<'a>(front: &[u8], text: &'a [u8]) -> Option<&'a [u8]>
    ensures { MatchOption result (behind front.now text.now ≡ None) (λ rest. behind front.now text.now ≡ Some rest.now) }
{
    text.strip_prefix(front)
}

/// Whether a text begins with a front.
pub fn begins(front: &[u8], text: &[u8]) -> bool
    ensures { result ≡ begins front.now text.now }
{
    text.strip_prefix(front).is_some()
}

/// The first `count` bytes of a text, or all, and what follows them.
pub fn split_front(text: &[u8], count: usize) -> (&[u8], &[u8])
    ensures front { result.0.now ≡ take count text.now }
    ensures rest { result.1.now ≡ drop count text.now }
    ensures within { length result.1.now ≤ length text.now }
{
    text.split_at(count.min(text.len()))
}
