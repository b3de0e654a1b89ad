// The forms that values have to have, in words, and a value of each form.

/// A key of annotations.
pub(crate) struct Form {
    /// What stands in the text.
    pub(crate) key: &'static [u8],
    /// What its value has to be.
    pub(crate) words: &'static str,
    /// A value in form.
    pub(crate) sample: &'static [u8],
}

/// A key whose value is a list of tables, with the keys of a table. The optional ones come last.
pub(crate) struct ListForm {
    pub(crate) key: &'static [u8],
    pub(crate) inner: &'static [Form],
    /// How many of them are required.
    pub(crate) required: usize,
}

const AT: Form = Form {
    key: b"at",
    words: "an address of 0 to 0xFFFF",
    sample: b"0",
};

const UNTIL: Form = Form {
    key: b"until",
    words: "an address of 0 to 0xFFFF",
    sample: b"0",
};

/// The keys with one value.
pub(crate) const SCALARS: [Form; 5] = [
    Form {
        key: b"low",
        words: "an address of 0 to 0xFFFF",
        sample: b"0",
    },
    Form {
        key: b"top",
        words: "an address of 0 to 0xFFFF",
        sample: b"0",
    },
    Form {
        key: b"nmi",
        words: "true or false",
        sample: b"true",
    },
    Form {
        key: b"budget",
        words: "0 to 50665 T-states, and stands exactly where nmi is true",
        sample: b"0",
    },
    Form {
        key: b"map",
        words: "\"galaxian\" or \"raised\"",
        sample: b"\"galaxian\"",
    },
];

/// The keys with a list of tables.
pub(crate) const LISTS: [ListForm; 8] = [
    ListForm {
        key: b"inline",
        inner: &[AT],
        required: 1,
    },
    ListForm {
        key: b"split",
        inner: &[
            AT,
            Form {
                key: b"register",
                words: "one of \"A\" \"B\" \"C\" \"D\" \"E\" \"H\" \"L\"",
                sample: b"\"A\"",
            },
            Form {
                key: b"parts",
                words: "a list of pairs [lo, hi] of 0 to 255, lo not above hi",
                sample: b"[[0, 1]]",
            },
            UNTIL,
        ],
        required: 4,
    },
    ListForm {
        key: b"fact",
        inner: &[
            AT,
            Form {
                key: b"sum",
                words: "one to three pairs [variable, coefficient], each variable once, such as [[\"DE\", 1], [\"B\", 2]]",
                sample: b"[[\"B\", 1]]",
            },
            Form {
                key: b"is",
                words: "a number of at most 1000000000 in size",
                sample: b"0",
            },
            Form {
                key: b"part",
                words: "the number of a part, 1 or more",
                sample: b"1",
            },
        ],
        required: 3,
    },
    ListForm {
        key: b"loop",
        inner: &[
            AT,
            Form {
                key: b"counter",
                words: "a variable, such as \"B\", \"BC\" or \"s0h\"",
                sample: b"\"B\"",
            },
        ],
        required: 2,
    },
    ListForm {
        key: b"cell",
        inner: &[
            Form {
                key: b"at",
                words: "an address in the first 400h bytes of work RAM",
                sample: b"0x4000",
            },
            Form {
                key: b"lo",
                words: "0 to 255, and not above hi",
                sample: b"0",
            },
            Form {
                key: b"hi",
                words: "0 to 255, and not below lo",
                sample: b"255",
            },
        ],
        required: 3,
    },
    ListForm {
        key: b"range",
        inner: &[
            AT,
            Form {
                key: b"variable",
                words: "a variable, such as \"B\", \"BC\" or \"s0h\"",
                sample: b"\"BC\"",
            },
            Form {
                key: b"lo",
                words: "a number that the variable can have, and not above hi",
                sample: b"0",
            },
            Form {
                key: b"hi",
                words: "a number that the variable can have, and not below lo",
                sample: b"255",
            },
        ],
        required: 4,
    },
    ListForm {
        key: b"context",
        inner: &[AT],
        required: 1,
    },
    ListForm {
        key: b"turns",
        inner: &[
            AT,
            Form {
                key: b"count",
                words: "1 to 255",
                sample: b"1",
            },
            UNTIL,
        ],
        required: 3,
    },
];

/// The keys that only `--infer` reads.
pub(crate) const FOR_INFER: [&[u8]; 3] = [b"range", b"context", b"turns"];

/// Whether annotations have a key of this name.
pub(crate) fn is_key(key: &[u8]) -> bool {
    SCALARS.iter().any(|form| form.key == key) || LISTS.iter().any(|form| form.key == key)
}
