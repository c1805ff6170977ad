/// So many lines the script has.
pub const LEN: usize = 10;

/// A script of ten lines, each with the text that it is to be answered; by hand, from the documents.
pub const LINES: [(&str, &str); LEN] = [
    ("class wells point", "ok 1\n"),
    ("rule point_must_be_disjoint wells", "ok 1\n"),
    ("begin ann", "ok\n"),
    ("by ann add wells POINT (3 4)", "ok 1\n"),
    ("by bob add wells POINT (3 4)", "refused E12\n"),
    ("by ann add wells POINT (3 4)", "ok 2\n"),
    ("validate all", "ok judged 2 errors 1 dirty 0\n"),
    (
        "cells",
        "error 1 1 2 cells 3 4 3 4\ncell 1 0 -3 =, 0 1 -4 =\ntotal 1\n",
    ),
    ("by ann add wells POINT (-5 6)", "ok 3\n"),
    ("dirty", "dirty -5 6 -5 6\ntotal 1\n"),
];

/// The text of the project that the script comes to; by hand, from the documents.
pub const SAVED: &str =
    "topology 2\nnext 4\nclass wells point\nrule 1 point_must_be_disjoint wells\nfeature 1 wells POINT (3 4)\nfeature 2 wells POINT (3 4)\nfeature 3 wells POINT (-5 6)\ndirty -5 6 -5 6\nerror 1 1 2 cells 3 4 3 4\ncell 1 0 -3 =, 0 1 -4 =\nend\n";

/// The run that saves: two squares that overlap, each line with its reply; by hand, from the documents.
pub const SAVING: [(&str, &str); 6] = [
    ("class lots polygon", "ok 1\n"),
    ("rule polygon_must_not_overlap lots", "ok 1\n"),
    ("begin ann", "ok\n"),
    (
        "by ann add lots POLYGON ((0 0, 10 0, 10 10, 0 10, 0 0))",
        "ok 1\n",
    ),
    (
        "by ann add lots POLYGON ((5 5, 15 5, 15 15, 5 15, 5 5))",
        "ok 2\n",
    ),
    ("validate all", "ok judged 2 errors 1 dirty 0\n"),
];

/// The text of the project that it saves; by hand, from the documents.
pub const LOTS: &str =
    "topology 2\nnext 3\nclass lots polygon\nrule 1 polygon_must_not_overlap lots\nfeature 1 lots POLYGON ((0 0, 10 0, 10 10, 0 10, 0 0))\nfeature 2 lots POLYGON ((5 5, 15 5, 15 15, 5 15, 5 5))\nerror 1 1 2 cells 5 5 10 10\ncell 1 0 0 >, -1 0 10 >, 0 10 0 >, 0 -10 100 >, 1 0 -5 >, -1 0 15 >, 0 10 -50 >, 0 -10 150 >\nend\n";
