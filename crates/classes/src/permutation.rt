// The permutations of the inputs, by their numbers.
ghost use Rattle.std.specs.Prelude.{◌<◌};
ghost use Rattle.classes.specs.Permutations.{IsPermutation};

// A permutation: the input that takes the place of each input, the row of the old table that each row reads, and the
// number of the inverse.
pub(crate) struct Permutation {
    pub(crate) sources: [u8; 4],
    pub(crate) rows: [u8; 16],
    pub(crate) inverse: u8,
}

// The permutations, in the order of their sources.
static PERMUTATIONS: [Permutation; 24] = [
    Permutation {
        sources: [0, 1, 2, 3],
        rows: [0, 1, 2, 3, 4, 5, 6, 7, 8, 9, 10, 11, 12, 13, 14, 15],
        inverse: 0,
    },
    Permutation {
        sources: [0, 1, 3, 2],
        rows: [0, 1, 2, 3, 8, 9, 10, 11, 4, 5, 6, 7, 12, 13, 14, 15],
        inverse: 1,
    },
    Permutation {
        sources: [0, 2, 1, 3],
        rows: [0, 1, 4, 5, 2, 3, 6, 7, 8, 9, 12, 13, 10, 11, 14, 15],
        inverse: 2,
    },
    Permutation {
        sources: [0, 2, 3, 1],
        rows: [0, 1, 8, 9, 2, 3, 10, 11, 4, 5, 12, 13, 6, 7, 14, 15],
        inverse: 4,
    },
    Permutation {
        sources: [0, 3, 1, 2],
        rows: [0, 1, 4, 5, 8, 9, 12, 13, 2, 3, 6, 7, 10, 11, 14, 15],
        inverse: 3,
    },
    Permutation {
        sources: [0, 3, 2, 1],
        rows: [0, 1, 8, 9, 4, 5, 12, 13, 2, 3, 10, 11, 6, 7, 14, 15],
        inverse: 5,
    },
    Permutation {
        sources: [1, 0, 2, 3],
        rows: [0, 2, 1, 3, 4, 6, 5, 7, 8, 10, 9, 11, 12, 14, 13, 15],
        inverse: 6,
    },
    Permutation {
        sources: [1, 0, 3, 2],
        rows: [0, 2, 1, 3, 8, 10, 9, 11, 4, 6, 5, 7, 12, 14, 13, 15],
        inverse: 7,
    },
    Permutation {
        sources: [1, 2, 0, 3],
        rows: [0, 4, 1, 5, 2, 6, 3, 7, 8, 12, 9, 13, 10, 14, 11, 15],
        inverse: 12,
    },
    Permutation {
        sources: [1, 2, 3, 0],
        rows: [0, 8, 1, 9, 2, 10, 3, 11, 4, 12, 5, 13, 6, 14, 7, 15],
        inverse: 18,
    },
    Permutation {
        sources: [1, 3, 0, 2],
        rows: [0, 4, 1, 5, 8, 12, 9, 13, 2, 6, 3, 7, 10, 14, 11, 15],
        inverse: 13,
    },
    Permutation {
        sources: [1, 3, 2, 0],
        rows: [0, 8, 1, 9, 4, 12, 5, 13, 2, 10, 3, 11, 6, 14, 7, 15],
        inverse: 19,
    },
    Permutation {
        sources: [2, 0, 1, 3],
        rows: [0, 2, 4, 6, 1, 3, 5, 7, 8, 10, 12, 14, 9, 11, 13, 15],
        inverse: 8,
    },
    Permutation {
        sources: [2, 0, 3, 1],
        rows: [0, 2, 8, 10, 1, 3, 9, 11, 4, 6, 12, 14, 5, 7, 13, 15],
        inverse: 10,
    },
    Permutation {
        sources: [2, 1, 0, 3],
        rows: [0, 4, 2, 6, 1, 5, 3, 7, 8, 12, 10, 14, 9, 13, 11, 15],
        inverse: 14,
    },
    Permutation {
        sources: [2, 1, 3, 0],
        rows: [0, 8, 2, 10, 1, 9, 3, 11, 4, 12, 6, 14, 5, 13, 7, 15],
        inverse: 20,
    },
    Permutation {
        sources: [2, 3, 0, 1],
        rows: [0, 4, 8, 12, 1, 5, 9, 13, 2, 6, 10, 14, 3, 7, 11, 15],
        inverse: 16,
    },
    Permutation {
        sources: [2, 3, 1, 0],
        rows: [0, 8, 4, 12, 1, 9, 5, 13, 2, 10, 6, 14, 3, 11, 7, 15],
        inverse: 22,
    },
    Permutation {
        sources: [3, 0, 1, 2],
        rows: [0, 2, 4, 6, 8, 10, 12, 14, 1, 3, 5, 7, 9, 11, 13, 15],
        inverse: 9,
    },
    Permutation {
        sources: [3, 0, 2, 1],
        rows: [0, 2, 8, 10, 4, 6, 12, 14, 1, 3, 9, 11, 5, 7, 13, 15],
        inverse: 11,
    },
    Permutation {
        sources: [3, 1, 0, 2],
        rows: [0, 4, 2, 6, 8, 12, 10, 14, 1, 5, 3, 7, 9, 13, 11, 15],
        inverse: 15,
    },
    Permutation {
        sources: [3, 1, 2, 0],
        rows: [0, 8, 2, 10, 4, 12, 6, 14, 1, 9, 3, 11, 5, 13, 7, 15],
        inverse: 21,
    },
    Permutation {
        sources: [3, 2, 0, 1],
        rows: [0, 4, 8, 12, 2, 6, 10, 14, 1, 5, 9, 13, 3, 7, 11, 15],
        inverse: 17,
    },
    Permutation {
        sources: [3, 2, 1, 0],
        rows: [0, 8, 4, 12, 2, 10, 6, 14, 1, 9, 5, 13, 3, 11, 7, 15],
        inverse: 23,
    },
];

impl Permutation {
    // The permutation of a number.
    pub(crate) fn numbered(order: u8) -> &'static Permutation
        requires { order < 24 }
        ensures { IsPermutation order result.now }
    {
        &PERMUTATIONS[usize::from(order)]
    }
}
