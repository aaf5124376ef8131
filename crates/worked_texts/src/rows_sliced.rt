// Worked scripts: a peer thread collects its heap in slices, or begins a marking between two phases of a cycle, each
// time between two others.

/// A thread takes away the only field that leads to an object of its open marking; another thread can't go on with a
/// marking, nor end it; and the driver ends one that was open when its cycle began. Rows as `parts_of` reads them.
pub const SLICED: &[u8] = b"# 0
p1 new a 1
p1 new b 0
p1 set a 0 b
p1 drop b
p1 begin
p1 get c a 0
p1 set a 0 -
p1 slice 1
p1 slice 9
p1 sweep
=
0 p1.1 new a 1 = p1
1 p1.2 new b 0 = p2
2 p1.3 set a 0 b = ok
3 p1.4 drop b = ok
4 p1.5 begin = 1
5 p1.6 get c a 0 = p2
6 p1.7 set a 0 - = ok
7 p1.8 slice 1 = more
8 p1.9 slice 9 = done
9 p1.10 sweep = 1 freed -
end 10
# 0
p1 new a 0
p1 begin
p2 begin
p2 collect
p2 slice 1
p2 sweep
p1 drop a
p1 slice 1
p1 slice 1
p1 sweep
p2 slice 1
p2 collect
=
0 p1.1 new a 0 = p1
1 p1.2 begin = 1
2 p2.3 begin = marking 1
3 p2.4 begin = marking 1
4 p2.5 slice 1 = marking 1
5 p2.6 sweep = marking 1
6 p1.7 drop a = ok
7 p1.8 slice 1 = done
8 p1.9 slice 1 = done
9 p1.10 sweep = 1 freed -
10 p2.11 slice 1 = nomark
11 p2.12 begin = 2
12 p2.12 sweep = 2 freed p1
end 13
# 0
m1 bridge a bridge 1 user 0
m1 drop a
p1 begin
c cycle
p1 slice 1
p1 sweep
=
0 m1.1 make user 0 = p1 h1
1 m1.1 adopt a bridge 1 p1 h1 = m1 @0
2 m1.2 drop a = ok
3 p1.3 begin = 1
4 c.4 snap 1 = 1 freed -
5 c.4 contract 1 = 1 sccs 0 xrefs
6 c.4 mirror 1 = 0 refs @4
7 c.4 weaken h1 = ok @4
8 c.4 sweep = 1 freed -
9 c.4 begin = 2
10 c.4 sweep = 2 freed p1
11 c.4 restore h1 = cleared
12 c.4 clear 1 = ok
13 c.4 resolve 1 = freed m1 @12
14 p1.5 slice 1 = nomark
15 p1.6 sweep = nomark
end 16
";

/// A peer thread begins a marking in each gap of a cycle. Until the cycle's own one the driver ends it first; while
/// that is open it is refused; and behind it nobody ends it.
pub const BEGUN: &[u8] = b"# 0
m1 bridge a bridge 1 user 0
m1 bridge b bridge 1 user 0
m1 set a 0 b
m1 weak k0 b
m1 pass a s0
p1 load a s0
p1 wglobal G0 a
p1 drop a
p1 store s0 -
m1 drop a
m1 drop b
c snap
p1 begin
c contract
c mirror
c weaken
c mark
c sweep
c restore
c resolve
m1 read k0
=
0 m1.1 make user 0 = p1 h1
1 m1.1 adopt a bridge 1 p1 h1 = m1 @0
2 m1.2 make user 0 = p2 h2
3 m1.2 adopt b bridge 1 p2 h2 = m2 @2
4 m1.3 set a 0 b = ok
5 m1.4 weak k0 b = ok
6 m1.5 lend a s0 = h1
7 m1.5 land h1 s0 = p1 @6
8 p1.6 load a s0 = p1
9 p1.7 wglobal G0 a = h3
10 p1.8 drop a = ok
11 p1.9 store s0 - = ok
12 m1.10 drop a = ok
13 m1.11 drop b = ok
14 c.12 snap 1 = 2 freed -
15 p1.13 begin = 1
16 c.14 contract 1 = 2 sccs 1 xrefs
17 c.15 mirror 1 = 1 refs @14
18 c.16 weaken h1 = ok @14
19 c.16 weaken h2 = ok @14
20 c.17 sweep = 1 freed -
21 c.17 begin = 2
22 c.18 sweep = 2 freed p1 p2
23 c.19 restore h1 = cleared
24 c.19 restore h2 = cleared
25 c.19 clear 1 = ok
26 c.20 resolve 1 = freed m1 m2 @25
27 m1.21 read k0 = gone
end 28
# 0
m1 bridge a bridge 1 user 0
m1 bridge b bridge 1 user 0
m1 set a 0 b
m1 weak k0 b
m1 pass a s0
p1 load a s0
p1 wglobal G0 a
p1 drop a
p1 store s0 -
m1 drop a
m1 drop b
c snap
c contract
p1 begin
c mirror
c weaken
c mark
c sweep
c restore
c resolve
m1 read k0
=
0 m1.1 make user 0 = p1 h1
1 m1.1 adopt a bridge 1 p1 h1 = m1 @0
2 m1.2 make user 0 = p2 h2
3 m1.2 adopt b bridge 1 p2 h2 = m2 @2
4 m1.3 set a 0 b = ok
5 m1.4 weak k0 b = ok
6 m1.5 lend a s0 = h1
7 m1.5 land h1 s0 = p1 @6
8 p1.6 load a s0 = p1
9 p1.7 wglobal G0 a = h3
10 p1.8 drop a = ok
11 p1.9 store s0 - = ok
12 m1.10 drop a = ok
13 m1.11 drop b = ok
14 c.12 snap 1 = 2 freed -
15 c.13 contract 1 = 2 sccs 1 xrefs
16 p1.14 begin = 1
17 c.15 mirror 1 = 1 refs @14
18 c.16 weaken h1 = ok @14
19 c.16 weaken h2 = ok @14
20 c.17 sweep = 1 freed -
21 c.17 begin = 2
22 c.18 sweep = 2 freed p1 p2
23 c.19 restore h1 = cleared
24 c.19 restore h2 = cleared
25 c.19 clear 1 = ok
26 c.20 resolve 1 = freed m1 m2 @25
27 m1.21 read k0 = gone
end 28
# 0
m1 bridge a bridge 1 user 0
m1 bridge b bridge 1 user 0
m1 set a 0 b
m1 weak k0 b
m1 pass a s0
p1 load a s0
p1 wglobal G0 a
p1 drop a
p1 store s0 -
m1 drop a
m1 drop b
c snap
c contract
c mirror
p1 begin
c weaken
c mark
c sweep
c restore
c resolve
m1 read k0
=
0 m1.1 make user 0 = p1 h1
1 m1.1 adopt a bridge 1 p1 h1 = m1 @0
2 m1.2 make user 0 = p2 h2
3 m1.2 adopt b bridge 1 p2 h2 = m2 @2
4 m1.3 set a 0 b = ok
5 m1.4 weak k0 b = ok
6 m1.5 lend a s0 = h1
7 m1.5 land h1 s0 = p1 @6
8 p1.6 load a s0 = p1
9 p1.7 wglobal G0 a = h3
10 p1.8 drop a = ok
11 p1.9 store s0 - = ok
12 m1.10 drop a = ok
13 m1.11 drop b = ok
14 c.12 snap 1 = 2 freed -
15 c.13 contract 1 = 2 sccs 1 xrefs
16 c.14 mirror 1 = 1 refs @14
17 p1.15 begin = 1
18 c.16 weaken h1 = ok @14
19 c.16 weaken h2 = ok @14
20 c.17 sweep = 1 freed -
21 c.17 begin = 2
22 c.18 sweep = 2 freed p1 p2
23 c.19 restore h1 = cleared
24 c.19 restore h2 = cleared
25 c.19 clear 1 = ok
26 c.20 resolve 1 = freed m1 m2 @25
27 m1.21 read k0 = gone
end 28
# 0
m1 bridge a bridge 1 user 0
m1 bridge b bridge 1 user 0
m1 set a 0 b
m1 weak k0 b
m1 pass a s0
p1 load a s0
p1 wglobal G0 a
p1 drop a
p1 store s0 -
m1 drop a
m1 drop b
c snap
c contract
c mirror
c weaken
p1 begin
c mark
c sweep
c restore
c resolve
m1 read k0
=
0 m1.1 make user 0 = p1 h1
1 m1.1 adopt a bridge 1 p1 h1 = m1 @0
2 m1.2 make user 0 = p2 h2
3 m1.2 adopt b bridge 1 p2 h2 = m2 @2
4 m1.3 set a 0 b = ok
5 m1.4 weak k0 b = ok
6 m1.5 lend a s0 = h1
7 m1.5 land h1 s0 = p1 @6
8 p1.6 load a s0 = p1
9 p1.7 wglobal G0 a = h3
10 p1.8 drop a = ok
11 p1.9 store s0 - = ok
12 m1.10 drop a = ok
13 m1.11 drop b = ok
14 c.12 snap 1 = 2 freed -
15 c.13 contract 1 = 2 sccs 1 xrefs
16 c.14 mirror 1 = 1 refs @14
17 c.15 weaken h1 = ok @14
18 c.15 weaken h2 = ok @14
19 p1.16 begin = 1
20 c.17 sweep = 1 freed p1 p2
21 c.17 begin = 2
22 c.18 sweep = 2 freed -
23 c.19 restore h1 = cleared
24 c.19 restore h2 = cleared
25 c.19 clear 1 = ok
26 c.20 resolve 1 = freed m1 m2 @25
27 m1.21 read k0 = gone
end 28
# 0
m1 bridge a bridge 1 user 0
m1 bridge b bridge 1 user 0
m1 set a 0 b
m1 weak k0 b
m1 pass a s0
p1 load a s0
p1 wglobal G0 a
p1 drop a
p1 store s0 -
m1 drop a
m1 drop b
c snap
c contract
c mirror
c weaken
c mark
p1 begin
c sweep
c restore
c resolve
m1 read k0
=
0 m1.1 make user 0 = p1 h1
1 m1.1 adopt a bridge 1 p1 h1 = m1 @0
2 m1.2 make user 0 = p2 h2
3 m1.2 adopt b bridge 1 p2 h2 = m2 @2
4 m1.3 set a 0 b = ok
5 m1.4 weak k0 b = ok
6 m1.5 lend a s0 = h1
7 m1.5 land h1 s0 = p1 @6
8 p1.6 load a s0 = p1
9 p1.7 wglobal G0 a = h3
10 p1.8 drop a = ok
11 p1.9 store s0 - = ok
12 m1.10 drop a = ok
13 m1.11 drop b = ok
14 c.12 snap 1 = 2 freed -
15 c.13 contract 1 = 2 sccs 1 xrefs
16 c.14 mirror 1 = 1 refs @14
17 c.15 weaken h1 = ok @14
18 c.15 weaken h2 = ok @14
19 c.16 begin = 1
20 p1.17 begin = marking 1
21 c.18 sweep = 1 freed p1 p2
22 c.19 restore h1 = cleared
23 c.19 restore h2 = cleared
24 c.19 clear 1 = ok
25 c.20 resolve 1 = freed m1 m2 @24
26 m1.21 read k0 = gone
end 27
# 0
m1 bridge a bridge 1 user 0
m1 bridge b bridge 1 user 0
m1 set a 0 b
m1 weak k0 b
m1 pass a s0
p1 load a s0
p1 wglobal G0 a
p1 drop a
p1 store s0 -
m1 drop a
m1 drop b
c snap
c contract
c mirror
c weaken
c mark
c sweep
p1 begin
c restore
c resolve
m1 read k0
=
0 m1.1 make user 0 = p1 h1
1 m1.1 adopt a bridge 1 p1 h1 = m1 @0
2 m1.2 make user 0 = p2 h2
3 m1.2 adopt b bridge 1 p2 h2 = m2 @2
4 m1.3 set a 0 b = ok
5 m1.4 weak k0 b = ok
6 m1.5 lend a s0 = h1
7 m1.5 land h1 s0 = p1 @6
8 p1.6 load a s0 = p1
9 p1.7 wglobal G0 a = h3
10 p1.8 drop a = ok
11 p1.9 store s0 - = ok
12 m1.10 drop a = ok
13 m1.11 drop b = ok
14 c.12 snap 1 = 2 freed -
15 c.13 contract 1 = 2 sccs 1 xrefs
16 c.14 mirror 1 = 1 refs @14
17 c.15 weaken h1 = ok @14
18 c.15 weaken h2 = ok @14
19 c.16 begin = 1
20 c.17 sweep = 1 freed p1 p2
21 p1.18 begin = 2
22 c.19 restore h1 = cleared
23 c.19 restore h2 = cleared
24 c.19 clear 1 = ok
25 c.20 resolve 1 = freed m1 m2 @24
26 m1.21 read k0 = gone
end 27
# 0
m1 bridge a bridge 1 user 0
m1 bridge b bridge 1 user 0
m1 set a 0 b
m1 weak k0 b
m1 pass a s0
p1 load a s0
p1 wglobal G0 a
p1 drop a
p1 store s0 -
m1 drop a
m1 drop b
c snap
c contract
c mirror
c weaken
c mark
c sweep
c restore
p1 begin
c resolve
m1 read k0
=
0 m1.1 make user 0 = p1 h1
1 m1.1 adopt a bridge 1 p1 h1 = m1 @0
2 m1.2 make user 0 = p2 h2
3 m1.2 adopt b bridge 1 p2 h2 = m2 @2
4 m1.3 set a 0 b = ok
5 m1.4 weak k0 b = ok
6 m1.5 lend a s0 = h1
7 m1.5 land h1 s0 = p1 @6
8 p1.6 load a s0 = p1
9 p1.7 wglobal G0 a = h3
10 p1.8 drop a = ok
11 p1.9 store s0 - = ok
12 m1.10 drop a = ok
13 m1.11 drop b = ok
14 c.12 snap 1 = 2 freed -
15 c.13 contract 1 = 2 sccs 1 xrefs
16 c.14 mirror 1 = 1 refs @14
17 c.15 weaken h1 = ok @14
18 c.15 weaken h2 = ok @14
19 c.16 begin = 1
20 c.17 sweep = 1 freed p1 p2
21 c.18 restore h1 = cleared
22 c.18 restore h2 = cleared
23 c.18 clear 1 = ok
24 p1.19 begin = 2
25 c.20 resolve 1 = freed m1 m2 @23
26 m1.21 read k0 = gone
end 27
";
