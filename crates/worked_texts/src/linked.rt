// A worked script whose report is compared in more than one place.

/// Two bridge objects, of which the one holds the other: one cycle while the first stays, and one after it went.
pub const LINKED: &[u8] = b"m1 bridge a bridge 1 user 0
m1 bridge b bridge 1 user 0
m1 set a 0 b
m1 drop b
c cycle
m1 drop a
c cycle
";

/// Its report.
pub const LINKED_REPORT: &[u8] = b"0 m1.1 make user 0 = p1 h1
1 m1.1 adopt a bridge 1 p1 h1 = m1 @0
2 m1.2 make user 0 = p2 h2
3 m1.2 adopt b bridge 1 p2 h2 = m2 @2
4 m1.3 set a 0 b = ok
5 m1.4 drop b = ok
6 c.5 snap 1 = 0 freed -
7 c.5 contract 1 = 0 sccs 0 xrefs
8 c.5 mirror 1 = 0 refs @6
9 c.5 begin = 1
10 c.5 sweep = 1 freed -
11 c.5 clear 1 = ok
12 c.5 resolve 1 = freed - @11
13 m1.6 drop a = ok
14 c.7 snap 2 = 2 freed -
15 c.7 contract 2 = 2 sccs 1 xrefs
16 c.7 mirror 2 = 1 refs @14
17 c.7 weaken h1 = ok @14
18 c.7 weaken h2 = ok @14
19 c.7 begin = 2
20 c.7 sweep = 2 freed p1 p2
21 c.7 restore h1 = cleared
22 c.7 restore h2 = cleared
23 c.7 clear 2 = ok
24 c.7 resolve 2 = freed m1 m2 @23
end 25
";
