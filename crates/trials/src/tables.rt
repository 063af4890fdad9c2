//! Board texts, the lines that the program prints of each, and the piece that a fault names.

/// First lines, right and wrong.
pub const HEADERS: [(&str, &str, &str); 18] = [
    ("", "fault text 11 1 0 0", ""),
    ("board names", "fault text 11 1 0 11", "board names"),
    ("board Names\n", "fault text 11 1 0 11", "board Names"),
    ("Board names\n", "fault text 11 1 0 11", "Board names"),
    ("board name\n", "fault text 11 1 0 10", "board name"),
    ("board namesx\n", "fault text 11 1 0 12", "board namesx"),
    ("board  names\n", "fault text 11 1 0 12", "board  names"),
    (" board names\n", "fault text 11 1 0 12", " board names"),
    ("board names \n", "fault text 11 1 0 12", "board names "),
    ("board\tnames\n", "fault text 11 1 0 11", "board\tnames"),
    ("board names\r\n", "fault text 11 1 0 12", "board names\r"),
    ("\n", "fault text 11 1 0 0", ""),
    ("board\n", "fault text 11 1 0 5", "board"),
    ("boardnames\n", "fault text 11 1 0 10", "boardnames"),
    ("join a b 1\n", "fault text 11 1 0 10", "join a b 1"),
    ("board long\n", "fault text 11 1 0 10", "board long"),
    (
        "board Numbers\njoin 1 2 3\n",
        "fault text 11 1 0 13",
        "board Numbers",
    ),
    ("\nboard names\n", "fault text 11 1 0 0", ""),
];

/// Lines that have not the form of a join: as the first join line, between two others, and as the last.
pub const FORMS: [(&str, &str, &str); 53] = [
    (
        "board names\njoin a b\n",
        "fault text 11 2 12 8",
        "join a b",
    ),
    ("board names\njoin a\n", "fault text 11 2 12 6", "join a"),
    ("board names\njoin\n", "fault text 11 2 12 4", "join"),
    (
        "board names\njoin a b 1 2\n",
        "fault text 11 2 12 12",
        "join a b 1 2",
    ),
    (
        "board names\njoin  a b 1\n",
        "fault text 11 2 12 11",
        "join  a b 1",
    ),
    (
        "board names\njoin a  b 1\n",
        "fault text 11 2 12 11",
        "join a  b 1",
    ),
    (
        "board names\njoin a b  1\n",
        "fault text 11 2 12 11",
        "join a b  1",
    ),
    (
        "board names\njoin\ta b 1\n",
        "fault text 11 2 12 10",
        "join\ta b 1",
    ),
    (
        "board names\njoin a\tb 1\n",
        "fault text 11 2 12 10",
        "join a\tb 1",
    ),
    (
        "board names\n join a b 1\n",
        "fault text 11 2 12 11",
        " join a b 1",
    ),
    (
        "board names\njoin a b 1 \n",
        "fault text 11 2 12 11",
        "join a b 1 ",
    ),
    ("board names\n\n", "fault text 11 2 12 0", ""),
    ("board names\n \n", "fault text 11 2 12 1", " "),
    (
        "board names\nJoin a b 1\n",
        "fault text 11 2 12 10",
        "Join a b 1",
    ),
    (
        "board names\njoins a b 1\n",
        "fault text 11 2 12 11",
        "joins a b 1",
    ),
    (
        "board names\njoin a b 1",
        "fault text 11 2 12 10",
        "join a b 1",
    ),
    (
        "board names\njoin a b 1\r",
        "fault text 11 2 12 11",
        "join a b 1\r",
    ),
    (
        "board names\nboard names\n",
        "fault text 11 2 12 11",
        "board names",
    ),
    (
        "board names\njoin x- y 1 2\n",
        "fault text 11 2 12 13",
        "join x- y 1 2",
    ),
    ("board names\njoin   \n", "fault text 11 2 12 7", "join   "),
    (
        "board names\njoin a b 1\njoin a b\njoin a b 1\n",
        "fault text 11 3 23 8",
        "join a b",
    ),
    (
        "board names\njoin a b 1\njoin a\njoin a b 1\n",
        "fault text 11 3 23 6",
        "join a",
    ),
    (
        "board names\njoin a b 1\njoin\njoin a b 1\n",
        "fault text 11 3 23 4",
        "join",
    ),
    (
        "board names\njoin a b 1\njoin a b 1 2\njoin a b 1\n",
        "fault text 11 3 23 12",
        "join a b 1 2",
    ),
    (
        "board names\njoin a b 1\njoin  a b 1\njoin a b 1\n",
        "fault text 11 3 23 11",
        "join  a b 1",
    ),
    (
        "board names\njoin a b 1\njoin a  b 1\njoin a b 1\n",
        "fault text 11 3 23 11",
        "join a  b 1",
    ),
    (
        "board names\njoin a b 1\njoin a b  1\njoin a b 1\n",
        "fault text 11 3 23 11",
        "join a b  1",
    ),
    (
        "board names\njoin a b 1\njoin\ta b 1\njoin a b 1\n",
        "fault text 11 3 23 10",
        "join\ta b 1",
    ),
    (
        "board names\njoin a b 1\njoin a\tb 1\njoin a b 1\n",
        "fault text 11 3 23 10",
        "join a\tb 1",
    ),
    (
        "board names\njoin a b 1\n join a b 1\njoin a b 1\n",
        "fault text 11 3 23 11",
        " join a b 1",
    ),
    (
        "board names\njoin a b 1\njoin a b 1 \njoin a b 1\n",
        "fault text 11 3 23 11",
        "join a b 1 ",
    ),
    (
        "board names\njoin a b 1\n\njoin a b 1\n",
        "fault text 11 3 23 0",
        "",
    ),
    (
        "board names\njoin a b 1\n \njoin a b 1\n",
        "fault text 11 3 23 1",
        " ",
    ),
    (
        "board names\njoin a b 1\njoin a b 1\njoin a b\n",
        "fault text 11 4 34 8",
        "join a b",
    ),
    (
        "board names\njoin a b 1\njoin a b 1\njoin a\n",
        "fault text 11 4 34 6",
        "join a",
    ),
    (
        "board names\njoin a b 1\njoin a b 1\njoin\n",
        "fault text 11 4 34 4",
        "join",
    ),
    (
        "board names\njoin a b 1\njoin a b 1\njoin a b 1 2\n",
        "fault text 11 4 34 12",
        "join a b 1 2",
    ),
    (
        "board names\njoin a b 1\njoin a b 1\njoin  a b 1\n",
        "fault text 11 4 34 11",
        "join  a b 1",
    ),
    (
        "board names\njoin a b 1\njoin a b 1\njoin a  b 1\n",
        "fault text 11 4 34 11",
        "join a  b 1",
    ),
    (
        "board names\njoin a b 1\njoin a b 1\njoin a b  1\n",
        "fault text 11 4 34 11",
        "join a b  1",
    ),
    (
        "board names\njoin a b 1\njoin a b 1\njoin\ta b 1\n",
        "fault text 11 4 34 10",
        "join\ta b 1",
    ),
    (
        "board names\njoin a b 1\njoin a b 1\njoin a\tb 1\n",
        "fault text 11 4 34 10",
        "join a\tb 1",
    ),
    (
        "board names\njoin a b 1\njoin a b 1\n join a b 1\n",
        "fault text 11 4 34 11",
        " join a b 1",
    ),
    (
        "board names\njoin a b 1\njoin a b 1\njoin a b 1 \n",
        "fault text 11 4 34 11",
        "join a b 1 ",
    ),
    (
        "board names\njoin a b 1\njoin a b 1\n\n",
        "fault text 11 4 34 0",
        "",
    ),
    (
        "board names\njoin a b 1\njoin a b 1\n \n",
        "fault text 11 4 34 1",
        " ",
    ),
    (
        "board names\njoin a b 1\njoin a b 1\nJoin a b 1\n",
        "fault text 11 4 34 10",
        "Join a b 1",
    ),
    (
        "board names\njoin a b 1\njoin a b 1\njoins a b 1\n",
        "fault text 11 4 34 11",
        "joins a b 1",
    ),
    (
        "board names\njoin a b 1\njoin a b 1\njoin a b 1",
        "fault text 11 4 34 10",
        "join a b 1",
    ),
    (
        "board names\njoin a b 1\njoin a b 1\njoin a b 1\r",
        "fault text 11 4 34 11",
        "join a b 1\r",
    ),
    (
        "board names\njoin a b 1\njoin a b 1\nboard names\n",
        "fault text 11 4 34 11",
        "board names",
    ),
    (
        "board names\njoin a b 1\njoin a b 1\njoin x- y 1 2\n",
        "fault text 11 4 34 13",
        "join x- y 1 2",
    ),
    (
        "board names\njoin a b 1\njoin a b 1\njoin   \n",
        "fault text 11 4 34 7",
        "join   ",
    ),
];

/// Keys that are none, in each line and in both places of a line.
pub const MALFORMED_KEYS: [(&str, &str, &str); 61] = [
    ("board names\njoin - b 1\n", "fault text 12 2 17 1", "-"),
    (
        "board names\njoin a b 1\njoin a - 1\njoin a b 1\n",
        "fault text 12 3 30 1",
        "-",
    ),
    (
        "board names\njoin a b 1\njoin a b 1\njoin a - 1\n",
        "fault text 12 4 41 1",
        "-",
    ),
    ("board names\njoin a-b b 1\n", "fault text 12 2 17 3", "a-b"),
    (
        "board names\njoin a b 1\njoin a a-b 1\njoin a b 1\n",
        "fault text 12 3 30 3",
        "a-b",
    ),
    (
        "board names\njoin a b 1\njoin a b 1\njoin a a-b 1\n",
        "fault text 12 4 41 3",
        "a-b",
    ),
    (
        "board names\njoin abcdefghijklm b 1\n",
        "fault text 12 2 17 13",
        "abcdefghijklm",
    ),
    (
        "board names\njoin a b 1\njoin a abcdefghijklm 1\njoin a b 1\n",
        "fault text 12 3 30 13",
        "abcdefghijklm",
    ),
    (
        "board names\njoin a b 1\njoin a b 1\njoin a abcdefghijklm 1\n",
        "fault text 12 4 41 13",
        "abcdefghijklm",
    ),
    ("board names\njoin a.b b 1\n", "fault text 12 2 17 3", "a.b"),
    (
        "board names\njoin a b 1\njoin a a.b 1\njoin a b 1\n",
        "fault text 12 3 30 3",
        "a.b",
    ),
    (
        "board names\njoin a b 1\njoin a b 1\njoin a a.b 1\n",
        "fault text 12 4 41 3",
        "a.b",
    ),
    ("board names\njoin é b 1\n", "fault text 12 2 17 2", "é"),
    (
        "board names\njoin a b 1\njoin a é 1\njoin a b 1\n",
        "fault text 12 3 30 2",
        "é",
    ),
    (
        "board names\njoin a b 1\njoin a b 1\njoin a é 1\n",
        "fault text 12 4 41 2",
        "é",
    ),
    ("board names\njoin a\t b 1\n", "fault text 12 2 17 2", "a\t"),
    (
        "board names\njoin a b 1\njoin a a\t 1\njoin a b 1\n",
        "fault text 12 3 30 2",
        "a\t",
    ),
    (
        "board names\njoin a b 1\njoin a b 1\njoin a a\t 1\n",
        "fault text 12 4 41 2",
        "a\t",
    ),
    ("board names\njoin x\r b 1\n", "fault text 12 2 17 2", "x\r"),
    (
        "board names\njoin a b 1\njoin a x\r 1\njoin a b 1\n",
        "fault text 12 3 30 2",
        "x\r",
    ),
    (
        "board names\njoin a b 1\njoin a b 1\njoin a x\r 1\n",
        "fault text 12 4 41 2",
        "x\r",
    ),
    ("board names\njoin a/b b 1\n", "fault text 12 2 17 3", "a/b"),
    (
        "board names\njoin a b 1\njoin a a/b 1\njoin a b 1\n",
        "fault text 12 3 30 3",
        "a/b",
    ),
    (
        "board names\njoin a b 1\njoin a b 1\njoin a a/b 1\n",
        "fault text 12 4 41 3",
        "a/b",
    ),
    ("board numbers\njoin 0 2 1\n", "fault text 12 2 19 1", "0"),
    (
        "board numbers\njoin 1 2 3\njoin 1 0 1\njoin 1 2 3\n",
        "fault text 12 3 32 1",
        "0",
    ),
    (
        "board numbers\njoin 1 2 3\njoin 1 2 3\njoin 1 0 1\n",
        "fault text 12 4 43 1",
        "0",
    ),
    (
        "board numbers\njoin 007 2 1\n",
        "fault text 12 2 19 3",
        "007",
    ),
    (
        "board numbers\njoin 1 2 3\njoin 1 007 1\njoin 1 2 3\n",
        "fault text 12 3 32 3",
        "007",
    ),
    (
        "board numbers\njoin 1 2 3\njoin 1 2 3\njoin 1 007 1\n",
        "fault text 12 4 43 3",
        "007",
    ),
    (
        "board numbers\njoin 1234567890 2 1\n",
        "fault text 12 2 19 10",
        "1234567890",
    ),
    (
        "board numbers\njoin 1 2 3\njoin 1 1234567890 1\njoin 1 2 3\n",
        "fault text 12 3 32 10",
        "1234567890",
    ),
    (
        "board numbers\njoin 1 2 3\njoin 1 2 3\njoin 1 1234567890 1\n",
        "fault text 12 4 43 10",
        "1234567890",
    ),
    (
        "board numbers\njoin 12a 2 1\n",
        "fault text 12 2 19 3",
        "12a",
    ),
    (
        "board numbers\njoin 1 2 3\njoin 1 12a 1\njoin 1 2 3\n",
        "fault text 12 3 32 3",
        "12a",
    ),
    (
        "board numbers\njoin 1 2 3\njoin 1 2 3\njoin 1 12a 1\n",
        "fault text 12 4 43 3",
        "12a",
    ),
    ("board numbers\njoin -1 2 1\n", "fault text 12 2 19 2", "-1"),
    (
        "board numbers\njoin 1 2 3\njoin 1 -1 1\njoin 1 2 3\n",
        "fault text 12 3 32 2",
        "-1",
    ),
    (
        "board numbers\njoin 1 2 3\njoin 1 2 3\njoin 1 -1 1\n",
        "fault text 12 4 43 2",
        "-1",
    ),
    ("board numbers\njoin +1 2 1\n", "fault text 12 2 19 2", "+1"),
    (
        "board numbers\njoin 1 2 3\njoin 1 +1 1\njoin 1 2 3\n",
        "fault text 12 3 32 2",
        "+1",
    ),
    (
        "board numbers\njoin 1 2 3\njoin 1 2 3\njoin 1 +1 1\n",
        "fault text 12 4 43 2",
        "+1",
    ),
    ("board numbers\njoin x 2 1\n", "fault text 12 2 19 1", "x"),
    (
        "board numbers\njoin 1 2 3\njoin 1 x 1\njoin 1 2 3\n",
        "fault text 12 3 32 1",
        "x",
    ),
    (
        "board numbers\njoin 1 2 3\njoin 1 2 3\njoin 1 x 1\n",
        "fault text 12 4 43 1",
        "x",
    ),
    ("board numbers\njoin 1. 2 1\n", "fault text 12 2 19 2", "1."),
    (
        "board numbers\njoin 1 2 3\njoin 1 1. 1\njoin 1 2 3\n",
        "fault text 12 3 32 2",
        "1.",
    ),
    (
        "board numbers\njoin 1 2 3\njoin 1 2 3\njoin 1 1. 1\n",
        "fault text 12 4 43 2",
        "1.",
    ),
    ("board numbers\njoin 01 2 1\n", "fault text 12 2 19 2", "01"),
    (
        "board numbers\njoin 1 2 3\njoin 1 01 1\njoin 1 2 3\n",
        "fault text 12 3 32 2",
        "01",
    ),
    (
        "board numbers\njoin 1 2 3\njoin 1 2 3\njoin 1 01 1\n",
        "fault text 12 4 43 2",
        "01",
    ),
    (
        "board numbers\njoin 1000000000 2 1\n",
        "fault text 12 2 19 10",
        "1000000000",
    ),
    (
        "board numbers\njoin 1 2 3\njoin 1 1000000000 1\njoin 1 2 3\n",
        "fault text 12 3 32 10",
        "1000000000",
    ),
    (
        "board numbers\njoin 1 2 3\njoin 1 2 3\njoin 1 1000000000 1\n",
        "fault text 12 4 43 10",
        "1000000000",
    ),
    (
        "board numbers\njoin 99999999999999999999 2 1\n",
        "fault text 12 2 19 20",
        "99999999999999999999",
    ),
    (
        "board numbers\njoin 1 2 3\njoin 1 99999999999999999999 1\njoin 1 2 3\n",
        "fault text 12 3 32 20",
        "99999999999999999999",
    ),
    (
        "board numbers\njoin 1 2 3\njoin 1 2 3\njoin 1 99999999999999999999 1\n",
        "fault text 12 4 43 20",
        "99999999999999999999",
    ),
    ("board names\njoin a- b- x\n", "fault text 12 2 17 2", "a-"),
    ("board names\njoin a b- x\n", "fault text 12 2 19 2", "b-"),
    ("board numbers\njoin 1 0 -0\n", "fault text 12 2 21 1", "0"),
    ("board numbers\njoin a b 1\n", "fault text 12 2 19 1", "a"),
];

/// Weights that are none, in each line.
pub const MALFORMED_WEIGHTS: [(&str, &str, &str); 45] = [
    ("board names\njoin a b -0\n", "fault text 13 2 21 2", "-0"),
    (
        "board names\njoin a b 1\njoin a b -0\njoin a b 1\n",
        "fault text 13 3 32 2",
        "-0",
    ),
    (
        "board numbers\njoin 1 2 3\njoin 1 2 3\njoin 1 2 -0\n",
        "fault text 13 4 45 2",
        "-0",
    ),
    ("board names\njoin a b +3\n", "fault text 13 2 21 2", "+3"),
    (
        "board names\njoin a b 1\njoin a b +3\njoin a b 1\n",
        "fault text 13 3 32 2",
        "+3",
    ),
    (
        "board numbers\njoin 1 2 3\njoin 1 2 3\njoin 1 2 +3\n",
        "fault text 13 4 45 2",
        "+3",
    ),
    ("board names\njoin a b 08\n", "fault text 13 2 21 2", "08"),
    (
        "board names\njoin a b 1\njoin a b 08\njoin a b 1\n",
        "fault text 13 3 32 2",
        "08",
    ),
    (
        "board numbers\njoin 1 2 3\njoin 1 2 3\njoin 1 2 08\n",
        "fault text 13 4 45 2",
        "08",
    ),
    (
        "board names\njoin a b 12345678\n",
        "fault text 13 2 21 8",
        "12345678",
    ),
    (
        "board names\njoin a b 1\njoin a b 12345678\njoin a b 1\n",
        "fault text 13 3 32 8",
        "12345678",
    ),
    (
        "board numbers\njoin 1 2 3\njoin 1 2 3\njoin 1 2 12345678\n",
        "fault text 13 4 45 8",
        "12345678",
    ),
    (
        "board names\njoin a b -12345678\n",
        "fault text 13 2 21 9",
        "-12345678",
    ),
    (
        "board names\njoin a b 1\njoin a b -12345678\njoin a b 1\n",
        "fault text 13 3 32 9",
        "-12345678",
    ),
    (
        "board numbers\njoin 1 2 3\njoin 1 2 3\njoin 1 2 -12345678\n",
        "fault text 13 4 45 9",
        "-12345678",
    ),
    ("board names\njoin a b -\n", "fault text 13 2 21 1", "-"),
    (
        "board names\njoin a b 1\njoin a b -\njoin a b 1\n",
        "fault text 13 3 32 1",
        "-",
    ),
    (
        "board numbers\njoin 1 2 3\njoin 1 2 3\njoin 1 2 -\n",
        "fault text 13 4 45 1",
        "-",
    ),
    ("board names\njoin a b --1\n", "fault text 13 2 21 3", "--1"),
    (
        "board names\njoin a b 1\njoin a b --1\njoin a b 1\n",
        "fault text 13 3 32 3",
        "--1",
    ),
    (
        "board numbers\njoin 1 2 3\njoin 1 2 3\njoin 1 2 --1\n",
        "fault text 13 4 45 3",
        "--1",
    ),
    ("board names\njoin a b 1.5\n", "fault text 13 2 21 3", "1.5"),
    (
        "board names\njoin a b 1\njoin a b 1.5\njoin a b 1\n",
        "fault text 13 3 32 3",
        "1.5",
    ),
    (
        "board numbers\njoin 1 2 3\njoin 1 2 3\njoin 1 2 1.5\n",
        "fault text 13 4 45 3",
        "1.5",
    ),
    ("board names\njoin a b 1\r\n", "fault text 13 2 21 2", "1\r"),
    (
        "board names\njoin a b 1\njoin a b 1\r\njoin a b 1\n",
        "fault text 13 3 32 2",
        "1\r",
    ),
    (
        "board numbers\njoin 1 2 3\njoin 1 2 3\njoin 1 2 1\r\n",
        "fault text 13 4 45 2",
        "1\r",
    ),
    ("board names\njoin a b -08\n", "fault text 13 2 21 3", "-08"),
    (
        "board names\njoin a b 1\njoin a b -08\njoin a b 1\n",
        "fault text 13 3 32 3",
        "-08",
    ),
    (
        "board numbers\njoin 1 2 3\njoin 1 2 3\njoin 1 2 -08\n",
        "fault text 13 4 45 3",
        "-08",
    ),
    ("board names\njoin a b 00\n", "fault text 13 2 21 2", "00"),
    (
        "board names\njoin a b 1\njoin a b 00\njoin a b 1\n",
        "fault text 13 3 32 2",
        "00",
    ),
    (
        "board numbers\njoin 1 2 3\njoin 1 2 3\njoin 1 2 00\n",
        "fault text 13 4 45 2",
        "00",
    ),
    ("board names\njoin a b x\n", "fault text 13 2 21 1", "x"),
    (
        "board names\njoin a b 1\njoin a b x\njoin a b 1\n",
        "fault text 13 3 32 1",
        "x",
    ),
    (
        "board numbers\njoin 1 2 3\njoin 1 2 3\njoin 1 2 x\n",
        "fault text 13 4 45 1",
        "x",
    ),
    ("board names\njoin a b 1e3\n", "fault text 13 2 21 3", "1e3"),
    (
        "board names\njoin a b 1\njoin a b 1e3\njoin a b 1\n",
        "fault text 13 3 32 3",
        "1e3",
    ),
    (
        "board numbers\njoin 1 2 3\njoin 1 2 3\njoin 1 2 1e3\n",
        "fault text 13 4 45 3",
        "1e3",
    ),
    ("board names\njoin a b -1-\n", "fault text 13 2 21 3", "-1-"),
    (
        "board names\njoin a b 1\njoin a b -1-\njoin a b 1\n",
        "fault text 13 3 32 3",
        "-1-",
    ),
    (
        "board numbers\njoin 1 2 3\njoin 1 2 3\njoin 1 2 -1-\n",
        "fault text 13 4 45 3",
        "-1-",
    ),
    (
        "board names\njoin a b 10000000\n",
        "fault text 13 2 21 8",
        "10000000",
    ),
    (
        "board names\njoin a b 1\njoin a b 10000000\njoin a b 1\n",
        "fault text 13 3 32 8",
        "10000000",
    ),
    (
        "board numbers\njoin 1 2 3\njoin 1 2 3\njoin 1 2 10000000\n",
        "fault text 13 4 45 8",
        "10000000",
    ),
];

/// Texts that are read to the end.
pub const ACCEPTED: [(&str, &str, &str); 14] = [
    ("board names\n", "board names\njoins 0\nsizes 0", ""),
    ("board numbers\n", "board numbers\njoins 0\nsizes 0", ""),
    (
        "board names\njoin a b 0\n",
        "board names\njoins 1\nsizes 0",
        "",
    ),
    (
        "board names\njoin a b -1\n",
        "board names\njoins 1\nsizes 1",
        "",
    ),
    (
        "board names\njoin a b 9999999\n",
        "board names\njoins 1\nsizes 9999999",
        "",
    ),
    (
        "board names\njoin a b -9999999\n",
        "board names\njoins 1\nsizes 9999999",
        "",
    ),
    (
        "board names\njoin abcdefghijkl _ 5\n",
        "board names\njoins 1\nsizes 5",
        "",
    ),
    (
        "board names\njoin 007 A_9 5\n",
        "board names\njoins 1\nsizes 5",
        "",
    ),
    (
        "board names\njoin gnd GND 1\n",
        "board names\njoins 1\nsizes 1",
        "",
    ),
    (
        "board numbers\njoin 1 999999999 1\n",
        "board numbers\njoins 1\nsizes 1",
        "",
    ),
    (
        "board numbers\njoin 7 7 7\n",
        "board numbers\njoins 1\nsizes 7",
        "",
    ),
    (
        "board names\njoin gnd vcc 3\njoin vcc clk 2\njoin clk GND 2\njoin clk rst 1\n",
        "board names\njoins 4\nsizes 8",
        "",
    ),
    (
        "board numbers\njoin 10 20 -4\njoin 20 30 4\n",
        "board numbers\njoins 2\nsizes 8",
        "",
    ),
    (
        "board names\njoin join join 1\n",
        "board names\njoins 1\nsizes 1",
        "",
    ),
];
