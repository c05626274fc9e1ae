//! Random networks of two lanelets, and the labels of their cells.

use super::*;
use crate::label_tests::labels_of_two;
use std::test::Fail;

/// Two lanelets by pairs of a left and a right point in cm; whether the second follows the first, and lies beside it; a
/// start in cm, a limit, and the labels in µm.
struct Row {
    first: [[u16; 4]; 3],
    second: [[u16; 4]; 2],
    follows: bool,
    beside: bool,
    start: (u16, u16),
    limit: u64,
    labels: &'static [Option<u64>],
}

const ROWS: [Row; 24] = [
    Row {
        first: [
            [51, 414, 49, 264],
            [152, 373, 147, 223],
            [266, 404, 265, 254],
        ],
        second: [[307, 416, 266, 251], [381, 439, 414, 235]],
        follows: true,
        beside: false,
        start: (154, 298),
        limit: 3_000_000,
        labels: &[None, Some(0), Some(1_129_847), Some(1_112_908)],
    },
    Row {
        first: [
            [47, 284, 42, 284],
            [234, 312, 228, 312],
            [474, 359, 469, 359],
        ],
        second: [[127, 582, 159, 319], [249, 586, 490, 286]],
        follows: false,
        beside: true,
        start: (255, 312),
        limit: 1_000_000,
        labels: &[
            Some(210_000),
            Some(40_358),
            Some(943_841),
            Some(0),
            Some(583_907),
        ],
    },
    Row {
        first: [
            [14, 646, 18, 346],
            [242, 591, 246, 291],
            [285, 509, 278, 209],
        ],
        second: [[19, 936, 63, 694], [300, 911, 254, 718]],
        follows: false,
        beside: true,
        start: (245, 441),
        limit: 5_000_000,
        labels: &[
            Some(1_146_231),
            Some(9_999),
            Some(0),
            Some(1_431_169),
            Some(1_255_129),
        ],
    },
    Row {
        first: [
            [42, 628, 47, 328],
            [207, 667, 207, 367],
            [400, 603, 407, 303],
        ],
        second: [[419, 617, 425, 301], [711, 601, 494, 336]],
        follows: true,
        beside: false,
        start: (209, 517),
        limit: 300_000,
        labels: &[None, Some(0), None, None, None, None],
    },
    Row {
        first: [[1, 468, 1, 388], [43, 401, 38, 321], [213, 363, 207, 283]],
        second: [[224, 349, 250, 287], [429, 367, 560, 315]],
        follows: true,
        beside: true,
        start: (46, 361),
        limit: 5_000_000,
        labels: &[
            Some(54_892),
            Some(0),
            Some(1_783_989),
            Some(2_764_043),
            Some(1_663_827),
        ],
    },
    Row {
        first: [
            [54, 414, 48, 264],
            [313, 458, 315, 308],
            [433, 417, 433, 267],
        ],
        second: [[115, 705, 146, 463], [510, 732, 407, 487]],
        follows: false,
        beside: true,
        start: (341, 383),
        limit: 3_000_000,
        labels: &[
            Some(1_567_793),
            Some(269_976),
            Some(0),
            Some(672_623),
            Some(472_684),
        ],
    },
    Row {
        first: [
            [24, 541, 18, 391],
            [134, 623, 129, 473],
            [211, 568, 214, 418],
        ],
        second: [[30, 695, 134, 593], [391, 734, 481, 630]],
        follows: false,
        beside: true,
        start: (37, 466),
        limit: 300_000,
        labels: &[Some(0), None, None, None],
    },
    Row {
        first: [
            [54, 384, 50, 384],
            [163, 335, 165, 335],
            [218, 418, 226, 418],
        ],
        second: [[256, 422, 232, 417], [356, 428, 524, 459]],
        follows: true,
        beside: false,
        start: (53, 384),
        limit: 5_000_000,
        labels: &[
            Some(0),
            Some(1_204_200),
            Some(2_249_811),
            Some(2_750_710),
            Some(2_188_984),
        ],
    },
    Row {
        first: [
            [47, 538, 51, 238],
            [288, 584, 282, 284],
            [438, 495, 433, 195],
        ],
        second: [[438, 495, 433, 195], [562, 459, 819, 188]],
        follows: true,
        beside: false,
        start: (305, 434),
        limit: 1_000_000,
        labels: &[None, None, Some(0), None, None],
    },
    Row {
        first: [
            [60, 644, 58, 344],
            [202, 732, 197, 432],
            [296, 799, 297, 499],
        ],
        second: [[318, 800, 339, 506], [475, 824, 655, 511]],
        follows: true,
        beside: true,
        start: (67, 494),
        limit: 3_000_000,
        labels: &[
            Some(0),
            Some(1_310_151),
            Some(2_472_606),
            None,
            Some(2_252_379),
        ],
    },
    Row {
        first: [
            [50, 337, 53, 257],
            [261, 284, 261, 204],
            [435, 308, 436, 228],
        ],
        second: [[80, 615, 173, 343], [385, 650, 267, 338]],
        follows: false,
        beside: true,
        start: (266, 244),
        limit: 300_000,
        labels: &[None, Some(50_000), Some(0), None, None],
    },
    Row {
        first: [
            [58, 575, 63, 275],
            [231, 619, 236, 319],
            [447, 631, 442, 331],
        ],
        second: [[161, 813, 108, 605], [471, 821, 254, 614]],
        follows: false,
        beside: true,
        start: (260, 469),
        limit: 5_000_000,
        labels: &[
            Some(264_963),
            Some(0),
            Some(790_000),
            Some(632_261),
            Some(264_963),
        ],
    },
    Row {
        first: [
            [39, 542, 31, 392],
            [231, 530, 232, 380],
            [383, 570, 389, 420],
        ],
        second: [[385, 586, 394, 424], [614, 593, 790, 418]],
        follows: true,
        beside: false,
        start: (46, 467),
        limit: 3_000_000,
        labels: &[Some(0), Some(873_662), Some(1_834_800), None, None, None],
    },
    Row {
        first: [[9, 531, 5, 231], [91, 453, 98, 153], [278, 438, 280, 138]],
        second: [[278, 438, 280, 138], [677, 430, 410, 120]],
        follows: true,
        beside: false,
        start: (107, 303),
        limit: 300_000,
        labels: &[None, Some(0), None, None],
    },
    Row {
        first: [
            [10, 531, 9, 231],
            [122, 570, 124, 270],
            [352, 547, 354, 247],
        ],
        second: [[104, 711, 38, 588], [179, 676, 111, 619]],
        follows: false,
        beside: true,
        start: (33, 381),
        limit: 300_000,
        labels: &[Some(0), None, None, None],
    },
    Row {
        first: [
            [27, 303, 32, 223],
            [125, 367, 132, 287],
            [348, 340, 349, 260],
        ],
        second: [[408, 327, 391, 261], [718, 363, 746, 284]],
        follows: true,
        beside: false,
        start: (59, 263),
        limit: 5_000_000,
        labels: &[
            Some(0),
            Some(768_439),
            Some(1_845_343),
            Some(3_348_662),
            Some(4_907_837),
            Some(2_928_570),
        ],
    },
    Row {
        first: [[30, 384, 27, 304], [77, 303, 70, 223], [160, 217, 163, 137]],
        second: [[160, 217, 163, 137], [350, 248, 462, 162]],
        follows: true,
        beside: false,
        start: (54, 344),
        limit: 3_000_000,
        labels: &[None, None, None, None],
    },
    Row {
        first: [[27, 339, 33, 339], [76, 283, 79, 283], [234, 239, 229, 239]],
        second: [[294, 254, 288, 236], [505, 228, 536, 262]],
        follows: true,
        beside: false,
        start: (77, 283),
        limit: 1_000_000,
        labels: &[Some(0), Some(0), None, None, None],
    },
    Row {
        first: [
            [18, 568, 17, 268],
            [163, 542, 165, 242],
            [247, 618, 239, 318],
        ],
        second: [[305, 628, 294, 309], [381, 678, 369, 359]],
        follows: true,
        beside: true,
        start: (184, 392),
        limit: 5_000_000,
        labels: &[Some(199_995), Some(0), Some(1_122_304), Some(569_530)],
    },
    Row {
        first: [
            [13, 381, 8, 301],
            [132, 318, 134, 238],
            [251, 283, 257, 203],
        ],
        second: [[47, 655, 58, 387], [172, 700, 131, 361]],
        follows: false,
        beside: true,
        start: (14, 341),
        limit: 3_000_000,
        labels: &[Some(0), Some(1_202_206), Some(636_553)],
    },
    Row {
        first: [
            [26, 528, 26, 228],
            [225, 471, 224, 171],
            [439, 515, 435, 215],
        ],
        second: [[129, 650, 116, 549], [497, 703, 443, 537]],
        follows: false,
        beside: true,
        start: (236, 321),
        limit: 5_000_000,
        labels: &[
            Some(1_105_943),
            Some(114_999),
            Some(0),
            Some(945_633),
            Some(854_501),
            Some(1_018_007),
        ],
    },
    Row {
        first: [
            [28, 458, 22, 378],
            [204, 384, 198, 304],
            [244, 400, 244, 320],
        ],
        second: [[244, 400, 244, 320], [378, 427, 422, 374]],
        follows: true,
        beside: false,
        start: (227, 344),
        limit: 300_000,
        labels: &[None, Some(0), Some(170_000)],
    },
    Row {
        first: [
            [26, 616, 30, 316],
            [131, 618, 124, 318],
            [384, 558, 383, 258],
        ],
        second: [[418, 577, 434, 244], [632, 574, 542, 260]],
        follows: true,
        beside: false,
        start: (133, 468),
        limit: 5_000_000,
        labels: &[
            None,
            Some(0),
            Some(1_228_890),
            Some(2_846_503),
            Some(3_389_720),
            Some(2_497_777),
        ],
    },
    Row {
        first: [
            [10, 387, 15, 307],
            [147, 400, 144, 320],
            [197, 459, 192, 379],
        ],
        second: [[197, 459, 192, 379], [560, 511, 468, 356]],
        follows: true,
        beside: false,
        start: (30, 347),
        limit: 1_000_000,
        labels: &[Some(0), None, None, None],
    },
];

#[test]
fn random_networks(rt: HostRuntime) -> Result<(), Fail> {
    for (i, row) in ROWS.iter().enumerate() {
        let successors: &[u32] = if row.follows { &[2] } else { &[] };
        let sides: &[u32] = if row.beside { &[2] } else { &[] };
        let found = labels_of_two(
            rt.alloc(),
            &row.first,
            successors,
            sides,
            &row.second,
            row.start,
            row.limit,
        )?;
        assert_eq!(rt; found.as_slice(), row.labels, "row {i}");
    }
    Ok(())
}
