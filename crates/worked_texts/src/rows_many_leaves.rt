// A worked script: three bridge objects lead to a circle of two plain objects, which leads to many others. The circle
// is a heavy class, for which a temporary stands.

/// Rows behind one another, as `parts_of` reads them.
pub const MANY_LEAVES: &[u8] = b"# 0
m1 new a plain 16
m1 new b plain 16
m1 set a 0 b
m1 set b 0 a
m1 bridge c leafbridge 0 framework 0
m1 set a 1 c
m1 bridge c leafbridge 0 framework 0
m1 set a 2 c
m1 bridge c leafbridge 0 framework 0
m1 set a 3 c
m1 bridge c leafbridge 0 framework 0
m1 set a 4 c
m1 bridge c leafbridge 0 framework 0
m1 set a 5 c
m1 bridge c leafbridge 0 framework 0
m1 set a 6 c
m1 bridge c leafbridge 0 framework 0
m1 set a 7 c
m1 bridge c leafbridge 0 framework 0
m1 set a 8 c
m1 bridge c leafbridge 0 framework 0
m1 set a 9 c
m1 bridge c leafbridge 0 framework 0
m1 set a 10 c
m1 bridge c leafbridge 0 framework 0
m1 set b 1 c
m1 bridge c leafbridge 0 framework 0
m1 set b 2 c
m1 bridge c leafbridge 0 framework 0
m1 set b 3 c
m1 bridge c leafbridge 0 framework 0
m1 set b 4 c
m1 bridge c leafbridge 0 framework 0
m1 set b 5 c
m1 bridge c leafbridge 0 framework 0
m1 set b 6 c
m1 bridge c leafbridge 0 framework 0
m1 set b 7 c
m1 bridge c leafbridge 0 framework 0
m1 set b 8 c
m1 bridge c leafbridge 0 framework 0
m1 set b 9 c
m1 bridge c leafbridge 0 framework 0
m1 set b 10 c
m1 bridge c bridge 1 user 0
m1 set c 0 a
m1 bridge c bridge 1 user 0
m1 set c 0 a
m1 bridge c bridge 1 user 0
m1 set c 0 a
m1 drop a
m1 drop b
m1 drop c
c cycle
=
0 m1.1 new a plain 16 = m1
1 m1.2 new b plain 16 = m2
2 m1.3 set a 0 b = ok
3 m1.4 set b 0 a = ok
4 m1.5 make framework 0 = p1 h1
5 m1.5 adopt c leafbridge 0 p1 h1 = m3 @4
6 m1.6 set a 1 c = ok
7 m1.7 make framework 0 = p2 h2
8 m1.7 adopt c leafbridge 0 p2 h2 = m4 @7
9 m1.8 set a 2 c = ok
10 m1.9 make framework 0 = p3 h3
11 m1.9 adopt c leafbridge 0 p3 h3 = m5 @10
12 m1.10 set a 3 c = ok
13 m1.11 make framework 0 = p4 h4
14 m1.11 adopt c leafbridge 0 p4 h4 = m6 @13
15 m1.12 set a 4 c = ok
16 m1.13 make framework 0 = p5 h5
17 m1.13 adopt c leafbridge 0 p5 h5 = m7 @16
18 m1.14 set a 5 c = ok
19 m1.15 make framework 0 = p6 h6
20 m1.15 adopt c leafbridge 0 p6 h6 = m8 @19
21 m1.16 set a 6 c = ok
22 m1.17 make framework 0 = p7 h7
23 m1.17 adopt c leafbridge 0 p7 h7 = m9 @22
24 m1.18 set a 7 c = ok
25 m1.19 make framework 0 = p8 h8
26 m1.19 adopt c leafbridge 0 p8 h8 = m10 @25
27 m1.20 set a 8 c = ok
28 m1.21 make framework 0 = p9 h9
29 m1.21 adopt c leafbridge 0 p9 h9 = m11 @28
30 m1.22 set a 9 c = ok
31 m1.23 make framework 0 = p10 h10
32 m1.23 adopt c leafbridge 0 p10 h10 = m12 @31
33 m1.24 set a 10 c = ok
34 m1.25 make framework 0 = p11 h11
35 m1.25 adopt c leafbridge 0 p11 h11 = m13 @34
36 m1.26 set b 1 c = ok
37 m1.27 make framework 0 = p12 h12
38 m1.27 adopt c leafbridge 0 p12 h12 = m14 @37
39 m1.28 set b 2 c = ok
40 m1.29 make framework 0 = p13 h13
41 m1.29 adopt c leafbridge 0 p13 h13 = m15 @40
42 m1.30 set b 3 c = ok
43 m1.31 make framework 0 = p14 h14
44 m1.31 adopt c leafbridge 0 p14 h14 = m16 @43
45 m1.32 set b 4 c = ok
46 m1.33 make framework 0 = p15 h15
47 m1.33 adopt c leafbridge 0 p15 h15 = m17 @46
48 m1.34 set b 5 c = ok
49 m1.35 make framework 0 = p16 h16
50 m1.35 adopt c leafbridge 0 p16 h16 = m18 @49
51 m1.36 set b 6 c = ok
52 m1.37 make framework 0 = p17 h17
53 m1.37 adopt c leafbridge 0 p17 h17 = m19 @52
54 m1.38 set b 7 c = ok
55 m1.39 make framework 0 = p18 h18
56 m1.39 adopt c leafbridge 0 p18 h18 = m20 @55
57 m1.40 set b 8 c = ok
58 m1.41 make framework 0 = p19 h19
59 m1.41 adopt c leafbridge 0 p19 h19 = m21 @58
60 m1.42 set b 9 c = ok
61 m1.43 make framework 0 = p20 h20
62 m1.43 adopt c leafbridge 0 p20 h20 = m22 @61
63 m1.44 set b 10 c = ok
64 m1.45 make user 0 = p21 h21
65 m1.45 adopt c bridge 1 p21 h21 = m23 @64
66 m1.46 set c 0 a = ok
67 m1.47 make user 0 = p22 h22
68 m1.47 adopt c bridge 1 p22 h22 = m24 @67
69 m1.48 set c 0 a = ok
70 m1.49 make user 0 = p23 h23
71 m1.49 adopt c bridge 1 p23 h23 = m25 @70
72 m1.50 set c 0 a = ok
73 m1.51 drop a = ok
74 m1.52 drop b = ok
75 m1.53 drop c = ok
76 c.54 snap 1 = 23 freed -
77 c.54 contract 1 = 24 sccs 23 xrefs
78 c.54 mirror 1 = 23 refs @76
79 c.54 weaken h1 = ok @76
80 c.54 weaken h2 = ok @76
81 c.54 weaken h3 = ok @76
82 c.54 weaken h4 = ok @76
83 c.54 weaken h5 = ok @76
84 c.54 weaken h6 = ok @76
85 c.54 weaken h7 = ok @76
86 c.54 weaken h8 = ok @76
87 c.54 weaken h9 = ok @76
88 c.54 weaken h10 = ok @76
89 c.54 weaken h11 = ok @76
90 c.54 weaken h12 = ok @76
91 c.54 weaken h13 = ok @76
92 c.54 weaken h14 = ok @76
93 c.54 weaken h15 = ok @76
94 c.54 weaken h16 = ok @76
95 c.54 weaken h17 = ok @76
96 c.54 weaken h18 = ok @76
97 c.54 weaken h19 = ok @76
98 c.54 weaken h20 = ok @76
99 c.54 weaken h21 = ok @76
100 c.54 weaken h22 = ok @76
101 c.54 weaken h23 = ok @76
102 c.54 begin = 1
103 c.54 sweep = 1 freed p1 p2 p3 p4 p5 p6 p7 p8 p9 p10 p11 p12 p13 p14 p15 p16 p17 p18 p19 p20 p21 p22 p23
104 c.54 restore h1 = cleared
105 c.54 restore h2 = cleared
106 c.54 restore h3 = cleared
107 c.54 restore h4 = cleared
108 c.54 restore h5 = cleared
109 c.54 restore h6 = cleared
110 c.54 restore h7 = cleared
111 c.54 restore h8 = cleared
112 c.54 restore h9 = cleared
113 c.54 restore h10 = cleared
114 c.54 restore h11 = cleared
115 c.54 restore h12 = cleared
116 c.54 restore h13 = cleared
117 c.54 restore h14 = cleared
118 c.54 restore h15 = cleared
119 c.54 restore h16 = cleared
120 c.54 restore h17 = cleared
121 c.54 restore h18 = cleared
122 c.54 restore h19 = cleared
123 c.54 restore h20 = cleared
124 c.54 restore h21 = cleared
125 c.54 restore h22 = cleared
126 c.54 restore h23 = cleared
127 c.54 clear 1 = ok
128 c.54 resolve 1 = freed m1 m2 m3 m4 m5 m6 m7 m8 m9 m10 m11 m12 m13 m14 m15 m16 m17 m18 m19 m20 m21 m22 m23 m24 m25 @127
end 129
";
