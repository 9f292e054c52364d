// Runs of fields that blocks may go without.
use crate::rows::Row;
use worked_calls::{ONE_BLOCK, TWO_BLOCKS};

/// Fields that blocks go without, and what thresholds drop.
pub const POOLS: [Row; 7] = [
    (
        TWO_BLOCKS,
        &[],
        "done cycles=10 blocks=2 total=1\n",
        3,
        &[(
            "mesh.hist",
            &[
                "cycle 0 field a_0 total 1 in 0 out 0 made 0 used 0 blocks 1",
                "cycle 1 field a_0 total 1 in 0 out 0 made 0 used 0 blocks 2",
                "cycle 2 field a_0 total 1 in 0 out 0 made 0 used 0 blocks 2",
                "cycle 3 field a_0 total 1 in 0 out 0 made 0 used 0 blocks 2",
                "cycle 4 field a_0 total 1 in 0 out 0 made 0 used 0 blocks 2",
                "cycle 5 field a_0 total 1 in 0 out 0 made 0 used 0 blocks 1",
                "cycle 6 field a_0 total 1 in 0 out 0 made 0 used 0 blocks 2",
                "cycle 7 field a_0 total 1 in 0 out 0 made 0 used 0 blocks 2",
                "cycle 8 field a_0 total 1 in 0 out 0 made 0 used 0 blocks 2",
                "cycle 9 field a_0 total 1 in 0 out 0 made 0 used 0 blocks 2",
                "cycle 10 field a_0 total 1 in 0 out 0 made 0 used 0 blocks 1",
            ],
        )],
    ),
    (
        TWO_BLOCKS,
        &["parthenon/sparse/alloc_threshold=1"],
        "done cycles=10 blocks=2 total=1\n",
        3,
        &[(
            "mesh.hist",
            &[
                "parthenon-whole history 2",
                "cycle 0 field a_0 total 1 in 0 out 0 made 0 used 0 drop 0 blocks 1",
                "cycle 1 field a_0 total 1 in 0 out 0 made 0 used 0 drop 0 blocks 1",
                "cycle 2 field a_0 total 1 in 0 out 0 made 0 used 0 drop 0 blocks 1",
                "cycle 3 field a_0 total 1 in 0 out 0 made 0 used 0 drop 0 blocks 1",
                "cycle 4 field a_0 total 1 in 0 out 0 made 0 used 0 drop 0 blocks 1",
                "cycle 5 field a_0 total 1 in 0 out 0 made 0 used 0 drop 0 blocks 1",
                "cycle 6 field a_0 total 1 in 0 out 0 made 0 used 0 drop 0 blocks 1",
                "cycle 7 field a_0 total 1 in 0 out 0 made 0 used 0 drop 0 blocks 1",
                "cycle 8 field a_0 total 1 in 0 out 0 made 0 used 0 drop 0 blocks 1",
                "cycle 9 field a_0 total 1 in 0 out 0 made 0 used 0 drop 0 blocks 1",
                "cycle 10 field a_0 total 1 in 0 out 0 made 0 used 0 drop 0 blocks 1",
            ],
        )],
    ),
    (
        TWO_BLOCKS,
        &[
            "box/0/amount=8",
            "parthenon/time/nlim=1",
            "parthenon/sparse/alloc_threshold=8",
        ],
        "done cycles=1 blocks=2 total=6\n",
        3,
        &[
            (
                "mesh.000001.dump",
                &[
                    "block 0 level 0 at 0 0 0 zero 0",
                    "field a_0",
                    "0 0 0 6",
                    "block 1 level 0 at 1 0 0 zero 1",
                ],
            ),
            (
                "mesh.hist",
                &["cycle 1 field a_0 total 6 in 0 out 0 made 0 used 0 drop 2 blocks 1"],
            ),
        ],
    ),
    (
        TWO_BLOCKS,
        &[
            "box/0/amount=8",
            "parthenon/time/nlim=1",
            "parthenon/sparse/alloc_threshold=7",
        ],
        "done cycles=1 blocks=2 total=8\n",
        3,
        &[
            (
                "mesh.000001.dump",
                &[
                    "block 0 level 0 at 0 0 0 zero 0",
                    "field a_0",
                    "0 0 0 6",
                    "block 1 level 0 at 1 0 0 zero 0",
                    "field a_0",
                    "2 0 0 0",
                ],
            ),
            (
                "mesh.hist",
                &["cycle 1 field a_0 total 8 in 0 out 0 made 0 used 0 drop 0 blocks 2"],
            ),
        ],
    ),
    (
        TWO_BLOCKS,
        &[
            "box/0/amount=8",
            "parthenon/time/nlim=1",
            "parthenon/sparse/dealloc_threshold=2",
            "parthenon/sparse/dealloc_count=1",
        ],
        "done cycles=1 blocks=2 total=6\n",
        3,
        &[
            (
                "mesh.000001.dump",
                &[
                    "block 0 level 0 at 0 0 0 zero 0",
                    "field a_0",
                    "0 0 0 6",
                    "block 1 level 0 at 1 0 0 zero 1",
                ],
            ),
            (
                "mesh.hist",
                &["cycle 1 field a_0 total 6 in 0 out 0 made 0 used 0 drop 2 blocks 1"],
            ),
        ],
    ),
    (
        ONE_BLOCK,
        &[
            "parthenon/mesh/ix1_bc=inflow",
            "parthenon/mesh/ox1_bc=outflow",
            "field/a/flags=Cell,Independent,FillGhost,WithFluxes,Sparse",
            "field/a/ids=0",
            "field/a/ix1_in=8",
            "box/0/field=a_0",
            "box/0/amount=0",
            "parthenon/time/nlim=1",
        ],
        "done cycles=1 blocks=1 total=2\n",
        3,
        &[
            ("mesh.000001.dump", &["field a_0", "2 0 0 0"]),
            (
                "mesh.hist",
                &[
                    "cycle 0 field a_0 total 0 in 0 out 0 made 0 used 0 blocks 0",
                    "cycle 1 field a_0 total 2 in 2 out 0 made 0 used 0 blocks 1",
                ],
            ),
        ],
    ),
    (
        ONE_BLOCK,
        &[
            "parthenon/mesh/ix1_bc=inflow",
            "parthenon/mesh/ox1_bc=outflow",
            "field/a/flags=Cell,Independent,FillGhost,WithFluxes,Sparse",
            "field/a/ids=0",
            "field/a/ix1_in=8",
            "box/0/field=a_0",
            "box/0/lo1=3",
            "box/0/hi1=3",
        ],
        "done cycles=2 blocks=1 total=9\n",
        4,
        &[
            ("mesh.000001.dump", &["field a_0", "2 0 0 6"]),
            ("mesh.000002.dump", &["field a_0", "4 0 0 5"]),
            (
                "mesh.hist",
                &[
                    "cycle 1 field a_0 total 8 in 2 out 2 made 0 used 0 blocks 1",
                    "cycle 2 field a_0 total 9 in 2 out 1 made 0 used 0 blocks 1",
                ],
            ),
        ],
    ),
];
