// Labels.
ghost use Rattle.std.specs.Prelude.{◌≡◌};
ghost use Rattle.std.specs.List.{list_all};
ghost use Rattle.key_vault.specs.Label.{is_label, is_label_byte};

/// Whether the bytes are 1 to 32 of `a` to `z`, `0` to `9` and `_`.
pub fn is_label(text: &[u8]) -> bool
    ensures { result ≡ is_label text.now }
{
    text.len() >= 1 && text.len() <= 32 && are_label_bytes(text)
}

fn are_label_bytes(text: &[u8]) -> bool
    ensures { result ≡ list_all is_label_byte text.now }
{
    text.iter().all(|b| is_label_byte(*b))
}

fn is_label_byte(b: u8) -> bool
    ensures { result ≡ is_label_byte b }
{
    (97 <= b && b <= 122) || (48 <= b && b <= 57) || b == 95
}
