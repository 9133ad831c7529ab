//! A paragraph on each fault.

/// A fault, as `earliest explain` shows it.
#[derive(Clone, Copy, Debug)]
pub struct Fault {
    /// The number in its line.
    pub number: &'static str,
    /// The name in its line.
    pub name: &'static str,
    /// What it means, in one line.
    pub meaning: &'static str,
    /// Its usual causes, and an example before and after.
    pub more: &'static str,
}

/// All faults: those of files and of the program, then those of a report that is checked.
pub const FAULTS: [Fault; 19] = [
    Fault {
        number: "1",
        name: "NoProblemLine",
        meaning: "a line comes before the problem line `p ..`, or a whole text has none",
        more: "The problem line says how many lines follow, and comes before all lines but comments and blank ones.\nUsual causes: an empty file, a file of another sort, a byte-order mark, a compressed file.\n\nBefore:  s 1\nAfter:   p aux sp ss 1\n         s 1\n",
    },
    Fault {
        number: "2",
        name: "SecondProblemLine",
        meaning: "a text has a second problem line `p ..`",
        more: "Usual causes: two files were put into one; a file was appended to itself.\n\nBefore:  p aux sp ss 1     After:  p aux sp ss 2\n         s 1                       s 1\n         p aux sp ss 1             s 2\n         s 2\n",
    },
    Fault {
        number: "3",
        name: "UnknownLine",
        meaning: "a line's first field is none that the file has",
        more: "Usual causes: `e` lines of another format, a comment without its c, files in the wrong order.\n\nBefore:  e 1 2 7     After:  a 1 2 7\n                             a 2 1 7\n",
    },
    Fault {
        number: "4",
        name: "FieldCount",
        meaning: "a line has too few or too many fields",
        more: "Usual causes: a weight is missing; commas in place of spaces; a note behind the numbers.\n\nBefore:  a 1 2     After:  a 1 2 7\n",
    },
    Fault {
        number: "5",
        name: "BadNumber",
        meaning: "a field that has to be a number has another byte than a digit",
        more: "A number is decimal digits alone: no sign, no point, no comma, no unit.\nUsual causes: weights with fractions or signs; times as hours and minutes.\n\nBefore:  a 1 2 7.5     After:  a 1 2 75, with all weights in tenths\n",
    },
    Fault {
        number: "6",
        name: "OutOfRange",
        meaning: "a number is out of its range",
        more: "Usual causes: nodes that count from 0; a problem line with too few nodes; a weight above 4294967295;\na .ss, .p2p or .tp file that belongs to a larger network.\n\nBefore:  s 0     After:  s 1\n",
    },
    Fault {
        number: "7",
        name: "TooManyLines",
        meaning: "there are more lines of a sort than the problem line announces",
        more: "Usual causes: lines were added and the problem line wasn't changed.\n\nBefore:  p sp 2 1     After:  p sp 2 2\n         a 1 2 7              a 1 2 7\n         a 2 1 7              a 2 1 7\n",
    },
    Fault {
        number: "8",
        name: "TooFewLines",
        meaning: "there are fewer lines than were announced",
        more: "Line 0 stands for the end of the file. Usual causes: a download or a disk that stopped; lines were taken out;\n`v` lines of a timetable are missing.\n\nBefore:  p aux sp ss 2     After:  p aux sp ss 1\n         s 1                       s 1\n",
    },
    Fault {
        number: "9",
        name: "BadKind",
        meaning: "a kind word isn't the one that has to stand there",
        more: "Usual causes: files in the wrong order, as the sources before the network; a misspelt kind of timetable.\n\nBefore:  earliest run starts.ss roads.gr\nAfter:   earliest run roads.gr starts.ss\n",
    },
    Fault {
        number: "10",
        name: "TooLarge",
        meaning: "a file has more than 8589934592 bytes",
        more: "Usual causes: a device in place of a file; several networks in one file.\n\nBefore:  earliest run /dev/zero starts.ss\nAfter:   earliest run roads.gr starts.ss\n",
    },
    Fault {
        number: "11",
        name: "ReadFailed",
        meaning: "a file was opened and couldn't be read",
        more: "Usual causes: a directory in place of a file; a disk or a network that failed.\n\nBefore:  earliest run . starts.ss\nAfter:   earliest run roads.gr starts.ss\n",
    },
    Fault {
        number: "12",
        name: "WriteFailed",
        meaning: "the output couldn't be written to its end",
        more: "So many bytes of it went out, its front. With -o FILE none of it is in FILE.\nUsual causes: a full disk; a quota; a terminal that was closed.\n\nBefore:  earliest run roads.gr starts.ss --walks > full-disk/report\nAfter:   earliest run roads.gr starts.ss --walks | gzip > other-disk/report.gz\n",
    },
    Fault {
        number: "13",
        name: "OutOfMemory",
        meaning: "memory was refused",
        more: "It says nothing of the files. A network takes about 30 bytes an arc, and a search some 30 bytes a node and worker.\nUsual causes: a limit of the shell (ulimit) or of a container; a network larger than the memory.\n\nBefore:  ulimit -v 100000; earliest run roads.gr starts.ss\nAfter:   ulimit -v unlimited; earliest run roads.gr starts.ss\n",
    },
    Fault {
        number: "14",
        name: "BadOption",
        meaning: "an option doesn't take this value, or a departure is beyond the last time",
        more: "Two files that are both - are told so, too. Times are whole numbers in the units of the weights, to 281474976710655.\nUsual causes: a time as hours and minutes; a sign; more than 16 workers; a large --gap with many sources.\n\nBefore:  earliest run roads.gr starts.ss --depart 8:00\nAfter:   earliest run roads.gr starts.ss --depart 28800\n",
    },
    Fault {
        number: "15",
        name: "OpenFailed",
        meaning: "a file can't be opened, or the file of -o can't be made",
        more: "Usual causes: a misspelt name; another folder; no permission.\n\nBefore:  earliest run road.gr starts.ss\nAfter:   earliest run roads.gr starts.ss\n",
    },
    Fault {
        number: "check 1",
        name: "BadLine",
        meaning: "a line of the report isn't the one that has to stand there; line 0: the report ends too early",
        more: "Usual causes: other --depart, --gap or --joint than the report was made with; another network or other sources;\na report that was cut short.\n\nBefore:  earliest check roads.gr starts.ss report\nAfter:   earliest check roads.gr starts.ss report --depart 28800\n",
    },
    Fault {
        number: "check 2",
        name: "NotAttained",
        meaning: "a line of the report names a time at which nothing arrives, or a walk that doesn't arrive then",
        more: "Usual causes: another --tp than the report was made with; a network that was changed since; a wrong report.\n\nBefore:  earliest check roads.gr starts.ss report\nAfter:   earliest check roads.gr starts.ss report --tp times.tp\n",
    },
    Fault {
        number: "check 3",
        name: "NotLeast",
        meaning: "a line of the report names a time, or inf, and there is an earlier arrival",
        more: "Usual causes: another --tp than the report was made with; a network that was changed since; a wrong report.\n\nBefore:  d 2 7     After:  d 2 5\n",
    },
    Fault {
        number: "check 5",
        name: "NotCanonical",
        meaning: "a walk of the report arrives at its time, but isn't the one of fewest arcs with the lowest last arc",
        more: "Usual causes: a report of another program, which settles ties in another way.\n\nBefore:  w 4 3 2 3 4     After:  w 4 2 1 5, where both arrive at the same time\n",
    },
];

/// The fault with a number or a name, in either case of letters. A number is that of a file's fault or of the
/// program's; `check 3` is the number of a fault that `check` finds.
pub fn fault_named(word: &str) -> Option<Fault> {
    for fault in &FAULTS {
        if word == fault.number || word.eq_ignore_ascii_case(fault.name) {
            return Some(*fault);
        }
    }
    None
}
