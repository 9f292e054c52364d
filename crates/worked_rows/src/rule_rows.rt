// Runs with reactions, by the second order, and in space.
use crate::rows::Row;
use worked_calls::{ONE_BLOCK, REACTION};

/// Reactions, the second order, and three axes.
pub const RULES: [Row; 7] = [
    (
        REACTION,
        &[],
        "done cycles=1 blocks=1 total=9\n",
        3,
        &[(
            "mesh.hist",
            &[
                "cycle 1 field a_0 total 9 in 0 out 0 made 0 used 0 blocks 1",
                "cycle 1 field b_0 total 0 in 0 out 0 made 0 used 0 blocks 0",
            ],
        )],
    ),
    (
        REACTION,
        &["box/0/amount=10"],
        "done cycles=1 blocks=1 total=10\n",
        3,
        &[
            (
                "mesh.000001.dump",
                &["field a_0", "9 0 0 0", "field b_0", "1 0 0 0"],
            ),
            (
                "mesh.hist",
                &[
                    "cycle 1 field a_0 total 9 in 0 out 0 made 0 used 1 blocks 1",
                    "cycle 1 field b_0 total 1 in 0 out 0 made 1 used 0 blocks 1",
                ],
            ),
        ],
    ),
    (
        REACTION,
        &[
            "box/0/amount=10",
            "reaction/s/from=b_0",
            "reaction/s/to=a_0",
            "reaction/s/num=1",
            "reaction/s/den=1",
        ],
        "done cycles=1 blocks=1 total=10\n",
        3,
        &[
            ("mesh.000001.dump", &["field a_0", "10 0 0 0"]),
            (
                "mesh.hist",
                &[
                    "cycle 1 field a_0 total 10 in 0 out 0 made 1 used 1 blocks 1",
                    "cycle 1 field b_0 total 0 in 0 out 0 made 1 used 1 blocks 0",
                ],
            ),
        ],
    ),
    (
        ONE_BLOCK,
        &[
            "whole/denominator=2",
            "box/0/amount=4",
            "box/1/field=a",
            "box/1/lo1=1",
            "box/1/hi1=1",
            "box/1/amount=8",
            "parthenon/time/nlim=1",
        ],
        "done cycles=1 blocks=1 total=12\n",
        3,
        &[("mesh.000001.dump", &["field a", "2 6 4 0"])],
    ),
    (
        ONE_BLOCK,
        &[
            "whole/denominator=2",
            "box/0/amount=4",
            "box/1/field=a",
            "box/1/lo1=1",
            "box/1/hi1=1",
            "box/1/amount=8",
            "parthenon/time/nlim=1",
            "field/a/order=2",
        ],
        "done cycles=1 blocks=1 total=12\n",
        3,
        &[("mesh.000001.dump", &["field a", "1 7 4 0"])],
    ),
    (
        ONE_BLOCK,
        &["field/a/order=2", "field/a/v1=2", "parthenon/time/nlim=0"],
        "done cycles=0 blocks=1 total=8\n",
        2,
        &[],
    ),
    (
        ONE_BLOCK,
        &[
            "parthenon/mesh/nx2=4",
            "parthenon/mesh/nx3=4",
            "parthenon/mesh/ix2_bc=reflecting",
            "parthenon/mesh/ox2_bc=reflecting",
            "parthenon/mesh/ix3_bc=reflecting",
            "parthenon/mesh/ox3_bc=reflecting",
            "field/a/v1=0",
            "field/a/v3=1",
            "box/0/hi2=0",
            "box/0/hi3=0",
            "parthenon/time/nlim=1",
        ],
        "done cycles=1 blocks=1 total=8\n",
        3,
        &[(
            "mesh.000001.dump",
            &[
                "dims 3 cells 4 4 4 root 1 1 1",
                "field a",
                "6 0 0 0",
                "0 0 0 0",
                "0 0 0 0",
                "0 0 0 0",
                "2 0 0 0",
                "0 0 0 0",
                "0 0 0 0",
                "0 0 0 0",
                "0 0 0 0",
                "0 0 0 0",
                "0 0 0 0",
                "0 0 0 0",
                "0 0 0 0",
                "0 0 0 0",
                "0 0 0 0",
                "0 0 0 0",
                "end",
            ],
        )],
    ),
];
