// Types of boxes.
ghost use Rattle.std.specs.Prelude.{◌≡◌};
ghost use Rattle.frag_boxes.specs.Moof.{traf_box, moof_box};

/// The types of boxes that matter in a `traf`.
#[derive(Clone, Copy)]
pub enum TrafBox {
    Tfhd,
    Trun,
    Other,
}

/// The types of boxes that matter in a `moof`.
#[derive(Clone, Copy)]
pub enum MoofBox {
    Traf,
    Pssh,
    Other,
}

#[tactic(auto, unfolding(crate::specs::Moof::traf_box))]
pub fn traf_box(kind: [u8; 4]) -> TrafBox
    ensures { result ≡ traf_box kind }
{
    if kind == *b"tfhd" {
        TrafBox::Tfhd
    } else if kind == *b"trun" {
        TrafBox::Trun
    } else {
        TrafBox::Other
    }
}

#[tactic(auto, unfolding(crate::specs::Moof::moof_box))]
pub fn moof_box(kind: [u8; 4]) -> MoofBox
    ensures { result ≡ moof_box kind }
{
    if kind == *b"traf" {
        MoofBox::Traf
    } else if kind == *b"pssh" {
        MoofBox::Pssh
    } else {
        MoofBox::Other
    }
}
