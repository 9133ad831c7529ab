//! The formats of the files, on one page.

/// How the files are written.
pub const FORMATS: &str = "\
Texts. A line ends with a line feed; a carriage return before it means nothing. Fields are separated by spaces or tabs.
Blank lines, and lines whose first field begins with c, mean nothing. Numbers are decimal digits. The problem line `p ..`
comes before all other lines, and says how many of them there are. Nodes and arcs count from 1, arcs in the order of their
lines. Times are whole numbers up to 281474976710655, in whatever unit the weights have.

.gr, the network
  p sp N M          N nodes (1 to 67108864), M arcs (0 to 268435456)
  a U V W           an arc from U to V of weight W (0 to 4294967295); M of them

.ss, the sources of `run`, `rank` and `check`
  p aux sp ss N     N sources (0 to 1000000)
  s S               a source; N of them

.p2p, the pairs of `pairs`
  p aux sp p2p N    N pairs (0 to 1000000)
  q S T             from S to T; N of them

.tp, the timetables of --tp; an arc without one takes its weight at any time
  p tp K T          K timetables (0 to 65535), T lines t (0 to 268435456)
  t E J             arc E has timetable J (0 for none); the last such line of an arc holds
  k J plain         it takes the weight W
  k J every P O     it leaves at the times that are O modulo P, and then takes W
  k J closed B E    it can't be entered from B until before E
  k J rush B E X    left from B until before E it takes X longer; later none arrives before those
  k J speeds P N    speeds by the time modulo P, in thousandths of the full one, at which it takes W; N lines v follow
  k J trips P N     departures, each arriving X + W later, modulo P, or once each where P is 0; N lines v follow
  k J points P N    X longer than W, by straight lines from point to point, modulo P where it isn't 0; N lines v follow
  v T X             from T on the speed is X (0 to 1000000), or a trip leaves or a point lies at T with X more; T rises

The times of --departs and --arrives
  p aux sp at N     N times, exactly one for each source or pair
  t D               the time of the source or pair of this number; N of them

The nodes of --nodes are written like the sources of .ss.

The report that `run` and `pairs` write
  s S D             a problem from source S, departing at D
  q S T D           a pair from S to T, departing at D
  d V A             the earliest arrival at V is A; or `inf`, where there is none
  w V k E1 .. Ek    with --walks: the k arcs of a walk that attains it
  with --arrive or --arrives:
  t T A             a problem to target T, to be reached by A
  t S T A           a pair from S to T, to be reached by A
  d V D             the latest departure from V is D; or `none`, where there is none
  w V k E1 .. Ek    with --walks: the k arcs of a walk from V, in the order in which they are driven
  in both:
  c NAME NUMBER     with --stats: totals of the search

The rank errors that `rank` writes
  s S D             a run from source S, departing at D
  r POPS MAX SUM    how many entries were popped, the greatest of their rank errors, and their sum
";
