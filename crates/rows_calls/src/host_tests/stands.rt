//! What stands at the places of a tree, at random.
ghost use Rattle.std.specs.Prelude.{◌<◌};

/// The places of a tree under its root. That of number n stands in that of number n / 2 - 1, the first two in the root.
pub(crate) const PLACES: [&str; 14] = [
    "justfile",
    "a b",
    "justfile/.justfile",
    "justfile/Justfile",
    "a b/c",
    "a b/JUSTFILE",
    "justfile/.justfile/x",
    "justfile/.justfile/justfile",
    "justfile/Justfile/ d",
    "justfile/Justfile/.JustFile",
    "a b/c/justfile",
    "a b/c/Justfile",
    "a b/JUSTFILE/x",
    "a b/JUSTFILE/c",
];

/// What may stand at a place.
#[derive(Clone, Copy, PartialEq, Eq)]
pub(crate) enum Stand {
    Nothing,
    Folder,
    File,
    /// A link to another place, which is neither a link nor behind one, or to nothing.
    Link,
    /// A link to itself.
    Loop,
}

/// Numbers at random, the same each time.
#[derive(Drop)]
pub(crate) struct Random {
    pub(crate) state: u64,
}

impl Random {
    /// The next number.
    pub(crate) fn next(&mut self) -> u8 {
        self.state = self
            .state
            .wrapping_mul(6_364_136_223_846_793_005)
            .wrapping_add(1_442_695_040_888_963_407);
        (self.state >> 56) as u8
    }
}

/// What stands at a place, where the place that it stands in is a folder.
fn any_stand(random: &mut Random) -> Stand {
    match random.next() % 16 {
        0 | 1 => Stand::Nothing,
        2..=9 => Stand::Folder,
        10 | 11 => Stand::File,
        12..=14 => Stand::Link,
        _ => Stand::Loop,
    }
}

/// What stands at each place.
pub(crate) fn grown(random: &mut Random) -> [Stand; 14] {
    let mut all = [Stand::Nothing; 14];
    for n in 0..14usize {
        if n < 2 || all[n / 2 - 1] == Stand::Folder {
            all[n] = any_stand(random);
        }
    }
    all
}

/// Whether a link stands there.
pub(crate) fn is_link(stand: Stand) -> bool {
    stand == Stand::Link || stand == Stand::Loop
}

/// Whether a place isn't behind a link.
pub(crate) fn is_before_links(all: &[Stand; 14], place: usize) -> bool {
    let mut n = place;
    for _ in 0..2u8 {
        if n < 2 || n >= 14 {
            return true;
        }
        n = n / 2 - 1;
        if is_link(all[n]) {
            return false;
        }
    }
    true
}
