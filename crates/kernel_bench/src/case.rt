//! What is measured.

use block_layout::Layout;

/// By which kernels a stage is made; with letters it is one by lists, after which letters fill the ghosts.
#[derive(Clone, Copy, PartialEq, Eq, Debug)]
pub(crate) enum Kernel {
    Fused,
    Lists,
    Slopes,
    Letters,
}

/// How many cells a block has along each axis.
#[derive(Clone, Copy, PartialEq, Eq, Debug)]
pub(crate) enum Size {
    Square16,
    Square64,
    Cube16,
}

/// Below which power of two the totals lie.
#[derive(Clone, Copy, PartialEq, Eq, Debug)]
pub(crate) enum Bits {
    Twenty,
    Word,
    Most,
}

/// Whether cells pay to the right alone, or to both sides.
#[derive(Clone, Copy, PartialEq, Eq, Debug)]
pub(crate) enum Ways {
    One,
    Both,
}

#[derive(Clone, Copy, Debug)]
pub(crate) struct Case {
    pub(crate) kernel: Kernel,
    pub(crate) size: Size,
    pub(crate) bits: Bits,
    pub(crate) ways: Ways,
}

impl Case {
    pub(crate) fn new() -> Case {
        Case {
            kernel: Kernel::Fused,
            size: Size::Square16,
            bits: Bits::Twenty,
            ways: Ways::Both,
        }
    }

    /// The case with what a word chooses; a word that chooses nothing changes nothing.
    pub(crate) fn with(self, word: &str) -> Case {
        Case {
            kernel: kernel_of(word, self.kernel),
            size: size_of(word, self.size),
            bits: bits_of(word, self.bits),
            ways: ways_of(word, self.ways),
        }
    }
}

fn kernel_of(word: &str, before: Kernel) -> Kernel {
    if word == "fused" {
        Kernel::Fused
    } else if word == "lists" {
        Kernel::Lists
    } else if word == "slopes" {
        Kernel::Slopes
    } else if word == "letters" {
        Kernel::Letters
    } else {
        before
    }
}

fn size_of(word: &str, before: Size) -> Size {
    if word == "16x16" {
        Size::Square16
    } else if word == "64x64" {
        Size::Square64
    } else if word == "16x16x16" {
        Size::Cube16
    } else {
        before
    }
}

fn bits_of(word: &str, before: Bits) -> Bits {
    if word == "20" {
        Bits::Twenty
    } else if word == "32" {
        Bits::Word
    } else if word == "62" {
        Bits::Most
    } else {
        before
    }
}

fn ways_of(word: &str, before: Ways) -> Ways {
    if word == "one" {
        Ways::One
    } else if word == "both" {
        Ways::Both
    } else {
        before
    }
}

impl Size {
    pub(crate) fn layout(self) -> Layout {
        match self {
            Size::Square16 => Layout {
                dims: 2,
                cells: [16, 16, 1],
            },
            Size::Square64 => Layout {
                dims: 2,
                cells: [64, 64, 1],
            },
            Size::Cube16 => Layout {
                dims: 3,
                cells: [16; 3],
            },
        }
    }
}

impl Bits {
    /// A total below the power of two, of a number that jumps about.
    pub(crate) fn total_of(self, number: u64) -> u64 {
        let mixed = number.wrapping_mul(0x9e37_79b9_7f4a_7c15);
        match self {
            Bits::Twenty => mixed >> 44,
            Bits::Word => mixed >> 32,
            Bits::Most => mixed >> 3,
        }
    }
}
