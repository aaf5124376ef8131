// Worked scripts: what single operations answer, also where they are refused, and lines that are faulty.

/// Rows behind one another, as `parts_of` reads them.
pub const LINES: &[u8] = b"# 0
m1 bridge a leafbridge 0 framework 3
=
0 m1.1 make framework 3 = p1 h1
1 m1.1 adopt a leafbridge 0 p1 h1 = m1 @0
end 2
# 3
m1 bridge a bridge 1 framework 0
=
line 1: cause 6 kind
# 3
m1 new a leaf 1
=
line 1: cause 6 kind
# 3
m1 new a plain 0
m1 jump a
=
line 2: cause 1 unknown
# 0
m1 take a
m1 bridge a bridge 0 user 0
m1 weak k5 a
m1 drop a
m1 read k5
m1 read k5
c cycle
m1 take b
m1 read k6
m1 weak k5 b
=
0 m1.1 take a = empty
1 m1.2 make user 0 = p1 h1
2 m1.2 adopt a bridge 0 p1 h1 = m1 @1
3 m1.3 weak k5 a = ok
4 m1.4 drop a = ok
5 m1.5 read k5 = m1
6 m1.6 read k5 = pinned m1
7 c.7 snap 1 = 0 freed -
8 c.7 contract 1 = 0 sccs 0 xrefs
9 c.7 mirror 1 = 0 refs @7
10 c.7 begin = 1
11 c.7 sweep = 1 freed -
12 c.7 clear 1 = ok
13 c.7 resolve 1 = freed - @12
14 m1.8 take b = m1
15 m1.9 read k6 = unset
16 m1.10 weak k5 b = taken
end 17
# 0
m1 new a plain 16
m1 set a 15 a
m1 set a 16 -
m1 get b a 0
=
0 m1.1 new a plain 16 = m1
1 m1.2 set a 15 a = ok
2 m1.3 set a 16 - = range
3 m1.4 get b a 0 = null
end 4
# 3
m1 new a plain 17
=
line 1: cause 5 limit
# 3

=
line 1: cause 1 unknown
# 0
c sweep
c snap
c snap
c mirror
=
0 c.1 refused sweep = at idle
1 c.2 snap 1 = 0 freed -
2 c.3 refused snap = open 1
3 c.4 refused mirror = at snapped
4 c.4 contract 1 = 0 sccs 0 xrefs
5 c.4 mirror 1 = 0 refs @1
6 c.4 begin = 1
7 c.4 sweep = 1 freed -
8 c.4 clear 1 = ok
9 c.4 resolve 1 = freed - @8
end 10
# 0
m1 new a plain 0
m1 drop a
c cycle
=
0 m1.1 new a plain 0 = m1
1 m1.2 drop a = ok
2 c.3 snap 1 = 0 freed m1
3 c.3 contract 1 = 0 sccs 0 xrefs
4 c.3 mirror 1 = 0 refs @2
5 c.3 begin = 1
6 c.3 sweep = 1 freed -
7 c.3 clear 1 = ok
8 c.3 resolve 1 = freed - @7
end 9
# 0
p1 new a 1
p1 global G0 a
p1 wglobal G1 a
p1 drop a
p1 collect
p1 unglobal G0
p1 collect
p1 wread b G1
p1 unglobal G1
p1 unglobal G1
=
0 p1.1 new a 1 = p1
1 p1.2 global G0 a = h1
2 p1.3 wglobal G1 a = h2
3 p1.4 drop a = ok
4 p1.5 begin = 1
5 p1.5 sweep = 1 freed -
6 p1.6 unglobal G0 = ok
7 p1.7 begin = 2
8 p1.7 sweep = 2 freed p1
9 p1.8 wread b G1 = gone
10 p1.9 unglobal G1 = ok
11 p1.10 unglobal G1 = unset
end 12
";

/// An activity with its listener and a list of two views, of which the one stands in a static too: a row of the same
/// kind.
pub const ACTIVITY: &[u8] = b"# 0
m1 bridge a bridge 3 user 2
m1 pass a s0
m1 bridge b bridge 1 user 0
m1 set a 0 b
m1 set b 0 a
m1 new c plain 2
m1 set a 1 c
m1 bridge d leafbridge 0 framework 0
m1 set c 0 d
m1 bridge e leafbridge 0 framework 0
m1 set c 1 e
m1 store g0 e
m1 weak k0 a
m1 drop a
m1 drop b
m1 drop c
m1 drop d
m1 drop e
c cycle
p1 store s0 -
c cycle
m1 read k0
c finalise 8
=
0 m1.1 make user 2 = p1 h1
1 m1.1 adopt a bridge 3 p1 h1 = m1 @0
2 m1.2 lend a s0 = h1
3 m1.2 land h1 s0 = p1 @2
4 m1.3 make user 0 = p2 h2
5 m1.3 adopt b bridge 1 p2 h2 = m2 @4
6 m1.4 set a 0 b = ok
7 m1.5 set b 0 a = ok
8 m1.6 new c plain 2 = m3
9 m1.7 set a 1 c = ok
10 m1.8 make framework 0 = p3 h3
11 m1.8 adopt d leafbridge 0 p3 h3 = m4 @10
12 m1.9 set c 0 d = ok
13 m1.10 make framework 0 = p4 h4
14 m1.10 adopt e leafbridge 0 p4 h4 = m5 @13
15 m1.11 set c 1 e = ok
16 m1.12 store g0 e = ok
17 m1.13 weak k0 a = ok
18 m1.14 drop a = ok
19 m1.15 drop b = ok
20 m1.16 drop c = ok
21 m1.17 drop d = ok
22 m1.18 drop e = ok
23 c.19 snap 1 = 3 freed -
24 c.19 contract 1 = 2 sccs 1 xrefs
25 c.19 mirror 1 = 3 refs @23
26 c.19 weaken h1 = ok @23
27 c.19 weaken h2 = ok @23
28 c.19 weaken h3 = ok @23
29 c.19 begin = 1
30 c.19 sweep = 1 freed -
31 c.19 restore h1 = alive h5
32 c.19 restore h2 = alive h6
33 c.19 restore h3 = alive h7
34 c.19 clear 1 = ok
35 c.19 resolve 1 = freed - @34
36 p1.20 store s0 - = ok
37 c.21 snap 2 = 3 freed -
38 c.21 contract 2 = 2 sccs 1 xrefs
39 c.21 mirror 2 = 3 refs @37
40 c.21 weaken h5 = ok @37
41 c.21 weaken h6 = ok @37
42 c.21 weaken h7 = ok @37
43 c.21 begin = 2
44 c.21 sweep = 2 freed p1 p2 p3
45 c.21 restore h5 = cleared
46 c.21 restore h6 = cleared
47 c.21 restore h7 = cleared
48 c.21 clear 2 = ok
49 c.21 resolve 2 = freed m1 m2 m3 m4 @48
50 m1.22 read k0 = gone
51 c.23 finalise 8 = m1 m2 m4
end 52
";
