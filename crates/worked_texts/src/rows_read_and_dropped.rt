// Worked scripts: a peer is read by a weak name and dropped again between two phases of a cycle, each time between two
// others.

/// Rows behind one another, as `parts_of` reads them.
pub const READ_AND_DROPPED: &[u8] = b"# 0
m1 bridge a bridge 1 user 0
m1 bridge b bridge 1 user 0
m1 set a 0 b
m1 weak k0 b
m1 pass a s0
p1 load a s0
p1 wglobal G0 a
p1 drop a
p1 store s0 -
m1 drop a
m1 drop b
c snap
p1 wread b G0
p1 drop b
c contract
c mirror
c weaken
c mark
c sweep
c restore
c resolve
m1 read k0
=
0 m1.1 make user 0 = p1 h1
1 m1.1 adopt a bridge 1 p1 h1 = m1 @0
2 m1.2 make user 0 = p2 h2
3 m1.2 adopt b bridge 1 p2 h2 = m2 @2
4 m1.3 set a 0 b = ok
5 m1.4 weak k0 b = ok
6 m1.5 lend a s0 = h1
7 m1.5 land h1 s0 = p1 @6
8 p1.6 load a s0 = p1
9 p1.7 wglobal G0 a = h3
10 p1.8 drop a = ok
11 p1.9 store s0 - = ok
12 m1.10 drop a = ok
13 m1.11 drop b = ok
14 c.12 snap 1 = 2 freed -
15 p1.13 wread b G0 = p1
16 p1.14 drop b = ok
17 c.15 contract 1 = 2 sccs 1 xrefs
18 c.16 mirror 1 = 1 refs @14
19 c.17 weaken h1 = ok @14
20 c.17 weaken h2 = ok @14
21 c.18 begin = 1
22 c.19 sweep = 1 freed p1 p2
23 c.20 restore h1 = cleared
24 c.20 restore h2 = cleared
25 c.20 clear 1 = ok
26 c.21 resolve 1 = freed m1 m2 @25
27 m1.22 read k0 = gone
end 28
# 0
m1 bridge a bridge 1 user 0
m1 bridge b bridge 1 user 0
m1 set a 0 b
m1 weak k0 b
m1 pass a s0
p1 load a s0
p1 wglobal G0 a
p1 drop a
p1 store s0 -
m1 drop a
m1 drop b
c snap
c contract
p1 wread b G0
p1 drop b
c mirror
c weaken
c mark
c sweep
c restore
c resolve
m1 read k0
=
0 m1.1 make user 0 = p1 h1
1 m1.1 adopt a bridge 1 p1 h1 = m1 @0
2 m1.2 make user 0 = p2 h2
3 m1.2 adopt b bridge 1 p2 h2 = m2 @2
4 m1.3 set a 0 b = ok
5 m1.4 weak k0 b = ok
6 m1.5 lend a s0 = h1
7 m1.5 land h1 s0 = p1 @6
8 p1.6 load a s0 = p1
9 p1.7 wglobal G0 a = h3
10 p1.8 drop a = ok
11 p1.9 store s0 - = ok
12 m1.10 drop a = ok
13 m1.11 drop b = ok
14 c.12 snap 1 = 2 freed -
15 c.13 contract 1 = 2 sccs 1 xrefs
16 p1.14 wread b G0 = p1
17 p1.15 drop b = ok
18 c.16 mirror 1 = 1 refs @14
19 c.17 weaken h1 = ok @14
20 c.17 weaken h2 = ok @14
21 c.18 begin = 1
22 c.19 sweep = 1 freed p1 p2
23 c.20 restore h1 = cleared
24 c.20 restore h2 = cleared
25 c.20 clear 1 = ok
26 c.21 resolve 1 = freed m1 m2 @25
27 m1.22 read k0 = gone
end 28
# 0
m1 bridge a bridge 1 user 0
m1 bridge b bridge 1 user 0
m1 set a 0 b
m1 weak k0 b
m1 pass a s0
p1 load a s0
p1 wglobal G0 a
p1 drop a
p1 store s0 -
m1 drop a
m1 drop b
c snap
c contract
c mirror
p1 wread b G0
p1 drop b
c weaken
c mark
c sweep
c restore
c resolve
m1 read k0
=
0 m1.1 make user 0 = p1 h1
1 m1.1 adopt a bridge 1 p1 h1 = m1 @0
2 m1.2 make user 0 = p2 h2
3 m1.2 adopt b bridge 1 p2 h2 = m2 @2
4 m1.3 set a 0 b = ok
5 m1.4 weak k0 b = ok
6 m1.5 lend a s0 = h1
7 m1.5 land h1 s0 = p1 @6
8 p1.6 load a s0 = p1
9 p1.7 wglobal G0 a = h3
10 p1.8 drop a = ok
11 p1.9 store s0 - = ok
12 m1.10 drop a = ok
13 m1.11 drop b = ok
14 c.12 snap 1 = 2 freed -
15 c.13 contract 1 = 2 sccs 1 xrefs
16 c.14 mirror 1 = 1 refs @14
17 p1.15 wread b G0 = p1
18 p1.16 drop b = ok
19 c.17 weaken h1 = ok @14
20 c.17 weaken h2 = ok @14
21 c.18 begin = 1
22 c.19 sweep = 1 freed p1 p2
23 c.20 restore h1 = cleared
24 c.20 restore h2 = cleared
25 c.20 clear 1 = ok
26 c.21 resolve 1 = freed m1 m2 @25
27 m1.22 read k0 = gone
end 28
# 0
m1 bridge a bridge 1 user 0
m1 bridge b bridge 1 user 0
m1 set a 0 b
m1 weak k0 b
m1 pass a s0
p1 load a s0
p1 wglobal G0 a
p1 drop a
p1 store s0 -
m1 drop a
m1 drop b
c snap
c contract
c mirror
c weaken
p1 wread b G0
p1 drop b
c mark
c sweep
c restore
c resolve
m1 read k0
=
0 m1.1 make user 0 = p1 h1
1 m1.1 adopt a bridge 1 p1 h1 = m1 @0
2 m1.2 make user 0 = p2 h2
3 m1.2 adopt b bridge 1 p2 h2 = m2 @2
4 m1.3 set a 0 b = ok
5 m1.4 weak k0 b = ok
6 m1.5 lend a s0 = h1
7 m1.5 land h1 s0 = p1 @6
8 p1.6 load a s0 = p1
9 p1.7 wglobal G0 a = h3
10 p1.8 drop a = ok
11 p1.9 store s0 - = ok
12 m1.10 drop a = ok
13 m1.11 drop b = ok
14 c.12 snap 1 = 2 freed -
15 c.13 contract 1 = 2 sccs 1 xrefs
16 c.14 mirror 1 = 1 refs @14
17 c.15 weaken h1 = ok @14
18 c.15 weaken h2 = ok @14
19 p1.16 wread b G0 = p1
20 p1.17 drop b = ok
21 c.18 begin = 1
22 c.19 sweep = 1 freed p1 p2
23 c.20 restore h1 = cleared
24 c.20 restore h2 = cleared
25 c.20 clear 1 = ok
26 c.21 resolve 1 = freed m1 m2 @25
27 m1.22 read k0 = gone
end 28
# 0
m1 bridge a bridge 1 user 0
m1 bridge b bridge 1 user 0
m1 set a 0 b
m1 weak k0 b
m1 pass a s0
p1 load a s0
p1 wglobal G0 a
p1 drop a
p1 store s0 -
m1 drop a
m1 drop b
c snap
c contract
c mirror
c weaken
c mark
p1 wread b G0
p1 drop b
c sweep
c restore
c resolve
m1 read k0
=
0 m1.1 make user 0 = p1 h1
1 m1.1 adopt a bridge 1 p1 h1 = m1 @0
2 m1.2 make user 0 = p2 h2
3 m1.2 adopt b bridge 1 p2 h2 = m2 @2
4 m1.3 set a 0 b = ok
5 m1.4 weak k0 b = ok
6 m1.5 lend a s0 = h1
7 m1.5 land h1 s0 = p1 @6
8 p1.6 load a s0 = p1
9 p1.7 wglobal G0 a = h3
10 p1.8 drop a = ok
11 p1.9 store s0 - = ok
12 m1.10 drop a = ok
13 m1.11 drop b = ok
14 c.12 snap 1 = 2 freed -
15 c.13 contract 1 = 2 sccs 1 xrefs
16 c.14 mirror 1 = 1 refs @14
17 c.15 weaken h1 = ok @14
18 c.15 weaken h2 = ok @14
19 c.16 begin = 1
20 p1.17 wread b G0 = p1
21 p1.18 drop b = ok
22 c.19 sweep = 1 freed -
23 c.20 restore h1 = alive h4
24 c.20 restore h2 = alive h5
25 c.20 clear 1 = ok
26 c.21 resolve 1 = freed - @25
27 m1.22 read k0 = m2
end 28
# 0
m1 bridge a bridge 1 user 0
m1 bridge b bridge 1 user 0
m1 set a 0 b
m1 weak k0 b
m1 pass a s0
p1 load a s0
p1 wglobal G0 a
p1 drop a
p1 store s0 -
m1 drop a
m1 drop b
c snap
c contract
c mirror
c weaken
c mark
c sweep
p1 wread b G0
p1 drop b
c restore
c resolve
m1 read k0
=
0 m1.1 make user 0 = p1 h1
1 m1.1 adopt a bridge 1 p1 h1 = m1 @0
2 m1.2 make user 0 = p2 h2
3 m1.2 adopt b bridge 1 p2 h2 = m2 @2
4 m1.3 set a 0 b = ok
5 m1.4 weak k0 b = ok
6 m1.5 lend a s0 = h1
7 m1.5 land h1 s0 = p1 @6
8 p1.6 load a s0 = p1
9 p1.7 wglobal G0 a = h3
10 p1.8 drop a = ok
11 p1.9 store s0 - = ok
12 m1.10 drop a = ok
13 m1.11 drop b = ok
14 c.12 snap 1 = 2 freed -
15 c.13 contract 1 = 2 sccs 1 xrefs
16 c.14 mirror 1 = 1 refs @14
17 c.15 weaken h1 = ok @14
18 c.15 weaken h2 = ok @14
19 c.16 begin = 1
20 c.17 sweep = 1 freed p1 p2
21 p1.18 wread b G0 = gone
22 p1.19 drop b = ok
23 c.20 restore h1 = cleared
24 c.20 restore h2 = cleared
25 c.20 clear 1 = ok
26 c.21 resolve 1 = freed m1 m2 @25
27 m1.22 read k0 = gone
end 28
# 0
m1 bridge a bridge 1 user 0
m1 bridge b bridge 1 user 0
m1 set a 0 b
m1 weak k0 b
m1 pass a s0
p1 load a s0
p1 wglobal G0 a
p1 drop a
p1 store s0 -
m1 drop a
m1 drop b
c snap
c contract
c mirror
c weaken
c mark
c sweep
c restore
p1 wread b G0
p1 drop b
c resolve
m1 read k0
=
0 m1.1 make user 0 = p1 h1
1 m1.1 adopt a bridge 1 p1 h1 = m1 @0
2 m1.2 make user 0 = p2 h2
3 m1.2 adopt b bridge 1 p2 h2 = m2 @2
4 m1.3 set a 0 b = ok
5 m1.4 weak k0 b = ok
6 m1.5 lend a s0 = h1
7 m1.5 land h1 s0 = p1 @6
8 p1.6 load a s0 = p1
9 p1.7 wglobal G0 a = h3
10 p1.8 drop a = ok
11 p1.9 store s0 - = ok
12 m1.10 drop a = ok
13 m1.11 drop b = ok
14 c.12 snap 1 = 2 freed -
15 c.13 contract 1 = 2 sccs 1 xrefs
16 c.14 mirror 1 = 1 refs @14
17 c.15 weaken h1 = ok @14
18 c.15 weaken h2 = ok @14
19 c.16 begin = 1
20 c.17 sweep = 1 freed p1 p2
21 c.18 restore h1 = cleared
22 c.18 restore h2 = cleared
23 c.18 clear 1 = ok
24 p1.19 wread b G0 = gone
25 p1.20 drop b = ok
26 c.21 resolve 1 = freed m1 m2 @23
27 m1.22 read k0 = gone
end 28
";
