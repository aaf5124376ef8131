// Worked scripts: whole cycles over both heaps, with what threads do between their phases.

/// Rows behind one another, as `parts_of` reads them.
pub const CYCLES: &[u8] = b"# 0
m1 bridge a bridge 1 user 1
m1 bridge b bridge 1 user 1
m1 set a 0 b
m1 pass a s0
m1 pass b s1
p1 load a s0
p1 load b s1
p1 set b 0 a
p1 drop a
p1 drop b
p1 store s0 -
p1 store s1 -
m1 drop a
m1 drop b
c cycle
=
0 m1.1 make user 1 = p1 h1
1 m1.1 adopt a bridge 1 p1 h1 = m1 @0
2 m1.2 make user 1 = p2 h2
3 m1.2 adopt b bridge 1 p2 h2 = m2 @2
4 m1.3 set a 0 b = ok
5 m1.4 lend a s0 = h1
6 m1.4 land h1 s0 = p1 @5
7 m1.5 lend b s1 = h2
8 m1.5 land h2 s1 = p2 @7
9 p1.6 load a s0 = p1
10 p1.7 load b s1 = p2
11 p1.8 set b 0 a = ok
12 p1.9 drop a = ok
13 p1.10 drop b = ok
14 p1.11 store s0 - = ok
15 p1.12 store s1 - = ok
16 m1.13 drop a = ok
17 m1.14 drop b = ok
18 c.15 snap 1 = 2 freed -
19 c.15 contract 1 = 2 sccs 1 xrefs
20 c.15 mirror 1 = 1 refs @18
21 c.15 weaken h1 = ok @18
22 c.15 weaken h2 = ok @18
23 c.15 begin = 1
24 c.15 sweep = 1 freed p1 p2
25 c.15 restore h1 = cleared
26 c.15 restore h2 = cleared
27 c.15 clear 1 = ok
28 c.15 resolve 1 = freed m1 m2 @27
end 29
# 0
m1 bridge a bridge 1 user 1
m1 bridge b bridge 1 user 1
m1 set a 0 b
m1 pass a s0
m1 pass b s1
p1 load a s0
p1 load b s1
p1 set b 0 a
p1 drop a
p1 drop b
p1 store s1 -
m1 drop a
m1 drop b
c cycle
=
0 m1.1 make user 1 = p1 h1
1 m1.1 adopt a bridge 1 p1 h1 = m1 @0
2 m1.2 make user 1 = p2 h2
3 m1.2 adopt b bridge 1 p2 h2 = m2 @2
4 m1.3 set a 0 b = ok
5 m1.4 lend a s0 = h1
6 m1.4 land h1 s0 = p1 @5
7 m1.5 lend b s1 = h2
8 m1.5 land h2 s1 = p2 @7
9 p1.6 load a s0 = p1
10 p1.7 load b s1 = p2
11 p1.8 set b 0 a = ok
12 p1.9 drop a = ok
13 p1.10 drop b = ok
14 p1.11 store s1 - = ok
15 m1.12 drop a = ok
16 m1.13 drop b = ok
17 c.14 snap 1 = 2 freed -
18 c.14 contract 1 = 2 sccs 1 xrefs
19 c.14 mirror 1 = 1 refs @17
20 c.14 weaken h1 = ok @17
21 c.14 weaken h2 = ok @17
22 c.14 begin = 1
23 c.14 sweep = 1 freed -
24 c.14 restore h1 = alive h3
25 c.14 restore h2 = alive h4
26 c.14 clear 1 = ok
27 c.14 resolve 1 = freed - @26
end 28
# 0
m1 bridge a bridge 1 user 0
m1 new b plain 1
m1 new c plain 1
m1 bridge d leafbridge 0 framework 0
m1 set a 0 b
m1 set b 0 c
m1 set c 0 d
m1 pass a s0
m1 drop a
m1 drop b
m1 drop c
m1 drop d
c cycle
=
0 m1.1 make user 0 = p1 h1
1 m1.1 adopt a bridge 1 p1 h1 = m1 @0
2 m1.2 new b plain 1 = m2
3 m1.3 new c plain 1 = m3
4 m1.4 make framework 0 = p2 h2
5 m1.4 adopt d leafbridge 0 p2 h2 = m4 @4
6 m1.5 set a 0 b = ok
7 m1.6 set b 0 c = ok
8 m1.7 set c 0 d = ok
9 m1.8 lend a s0 = h1
10 m1.8 land h1 s0 = p1 @9
11 m1.9 drop a = ok
12 m1.10 drop b = ok
13 m1.11 drop c = ok
14 m1.12 drop d = ok
15 c.13 snap 1 = 2 freed -
16 c.13 contract 1 = 2 sccs 1 xrefs
17 c.13 mirror 1 = 1 refs @15
18 c.13 weaken h1 = ok @15
19 c.13 weaken h2 = ok @15
20 c.13 begin = 1
21 c.13 sweep = 1 freed -
22 c.13 restore h1 = alive h3
23 c.13 restore h2 = alive h4
24 c.13 clear 1 = ok
25 c.13 resolve 1 = freed - @24
end 26
# 0
m1 bridge a bridge 0 user 0
m1 weak k0 a
m1 drop a
c snap
m1 read k0
c contract
c mirror
c weaken
c mark
c sweep
c restore
m1 wait k0
c resolve
m1 read k0
=
0 m1.1 make user 0 = p1 h1
1 m1.1 adopt a bridge 0 p1 h1 = m1 @0
2 m1.2 weak k0 a = ok
3 m1.3 drop a = ok
4 c.4 snap 1 = 1 freed -
5 m1.5 read k0 = pending 1
6 c.6 contract 1 = 1 sccs 0 xrefs
7 c.7 mirror 1 = 0 refs @4
8 c.8 weaken h1 = ok @4
9 c.9 begin = 1
10 c.10 sweep = 1 freed p1
11 c.11 restore h1 = cleared
12 c.11 clear 1 = ok
13 m1.12 wait k0 = pending 1
14 c.13 resolve 1 = freed m1 @12
15 m1.14 read k0 = gone
end 16
# 0
m1 bridge a bridge 1 user 0
m1 bridge b bridge 1 user 0
m1 set a 0 b
m1 set b 0 a
m1 drop a
m1 drop b
c snap
c contract
c mirror
c weaken
p1 collect
c mark
c sweep
c restore
c resolve
=
0 m1.1 make user 0 = p1 h1
1 m1.1 adopt a bridge 1 p1 h1 = m1 @0
2 m1.2 make user 0 = p2 h2
3 m1.2 adopt b bridge 1 p2 h2 = m2 @2
4 m1.3 set a 0 b = ok
5 m1.4 set b 0 a = ok
6 m1.5 drop a = ok
7 m1.6 drop b = ok
8 c.7 snap 1 = 2 freed -
9 c.8 contract 1 = 1 sccs 0 xrefs
10 c.9 mirror 1 = 2 refs @8
11 c.10 weaken h1 = ok @8
12 c.10 weaken h2 = ok @8
13 p1.11 begin = 1
14 p1.11 sweep = 1 freed p1 p2
15 c.12 begin = 2
16 c.13 sweep = 2 freed -
17 c.14 restore h1 = cleared
18 c.14 restore h2 = cleared
19 c.14 clear 1 = ok
20 c.15 resolve 1 = freed m1 m2 @19
end 21
# 0
m1 bridge a bridge 0 user 0
m1 pass a s0
p1 load a s0
p1 wglobal G0 a
p1 drop a
p1 store s0 -
m1 drop a
c snap
p1 wread b G0
c contract
=
0 m1.1 make user 0 = p1 h1
1 m1.1 adopt a bridge 0 p1 h1 = m1 @0
2 m1.2 lend a s0 = h1
3 m1.2 land h1 s0 = p1 @2
4 p1.3 load a s0 = p1
5 p1.4 wglobal G0 a = h2
6 p1.5 drop a = ok
7 p1.6 store s0 - = ok
8 m1.7 drop a = ok
9 c.8 snap 1 = 1 freed -
10 p1.9 wread b G0 = p1
11 c.10 contract 1 = 1 sccs 0 xrefs
12 c.10 mirror 1 = 0 refs @9
13 c.10 weaken h1 = ok @9
14 c.10 begin = 1
15 c.10 sweep = 1 freed -
16 c.10 restore h1 = alive h3
17 c.10 clear 1 = ok
18 c.10 resolve 1 = freed - @17
end 19
# 0
m1 bridge a bridge 0 user 0
m1 pass a s0
p1 load a s0
p1 new b 1
p1 set b 0 a
p1 drop a
p1 store s0 -
m1 drop a
c snap
c contract
p1 get c b 0
p1 store s1 c
p1 set b 0 -
p1 drop c
c mirror
=
0 m1.1 make user 0 = p1 h1
1 m1.1 adopt a bridge 0 p1 h1 = m1 @0
2 m1.2 lend a s0 = h1
3 m1.2 land h1 s0 = p1 @2
4 p1.3 load a s0 = p1
5 p1.4 new b 1 = p2
6 p1.5 set b 0 a = ok
7 p1.6 drop a = ok
8 p1.7 store s0 - = ok
9 m1.8 drop a = ok
10 c.9 snap 1 = 1 freed -
11 c.10 contract 1 = 1 sccs 0 xrefs
12 p1.11 get c b 0 = p1
13 p1.12 store s1 c = ok
14 p1.13 set b 0 - = ok
15 p1.14 drop c = ok
16 c.15 mirror 1 = 0 refs @10
17 c.15 weaken h1 = ok @10
18 c.15 begin = 1
19 c.15 sweep = 1 freed -
20 c.15 restore h1 = alive h2
21 c.15 clear 1 = ok
22 c.15 resolve 1 = freed - @21
end 23
# 0
m1 bridge a bridge 0 user 0
m1 pass a s0
m1 handle a
m1 weak k0 a
m1 drop a
c cycle
m1 read k0
m1 take a
m1 handle a
=
0 m1.1 make user 0 = p1 h1
1 m1.1 adopt a bridge 0 p1 h1 = m1 @0
2 m1.2 lend a s0 = h1
3 m1.2 land h1 s0 = p1 @2
4 m1.3 handle a = h1
5 m1.4 weak k0 a = ok
6 m1.5 drop a = ok
7 c.6 snap 1 = 1 freed -
8 c.6 contract 1 = 1 sccs 0 xrefs
9 c.6 mirror 1 = 0 refs @7
10 c.6 weaken h1 = ok @7
11 c.6 begin = 1
12 c.6 sweep = 1 freed -
13 c.6 restore h1 = alive h2
14 c.6 clear 1 = ok
15 c.6 resolve 1 = freed - @14
16 m1.7 read k0 = m1
17 m1.8 take a = m1
18 m1.9 handle a = h2
end 19
# 0
m1 bridge a bridge 1 user 2
m1 pass a s0
m1 dispose a
m1 handle a
m1 surface b s0
m1 surface c s0
m1 handle b
m1 surface d s9
=
0 m1.1 make user 2 = p1 h1
1 m1.1 adopt a bridge 1 p1 h1 = m1 @0
2 m1.2 lend a s0 = h1
3 m1.2 land h1 s0 = p1 @2
4 m1.3 give a = h1
5 m1.3 release h1 = ok @4
6 m1.4 handle a = plain
7 m1.5 grip s0 = p1 h2 user 2
8 m1.5 meet b p1 h2 user 2 = m2 new @7
9 m1.6 grip s0 = p1 h3 user 2
10 m1.6 meet c p1 h3 user 2 = m2 twin @9
11 m1.6 release h3 = ok @10
12 m1.7 handle b = h2
13 m1.8 grip s9 = null
end 14
";
