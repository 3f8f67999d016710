/// Sessions in the form that `scripts` reads.
pub const ROWS: &str = "\
1+2+3 = 6

1 + 2 = 3
(1+2)+3 = 6
((1)) = 1
0.5+1 = 3/2
1.0+2 = 3

2×3 = 6
1+ = ! syntax
1 + 1 = 2

+1 = ! syntax
1++1 = ! syntax
1a = a
(1)(2) = 2
-1 = -1

:nothing = ! command
 : = ! command
1->x = 1

1. = ! character 2
2$3 = ! character 2
2+ = ! syntax
abcdefgh = ! character 1

abcdefg = abcdefg
a1234567+1 = ! character 1
abc1234 = abc1234
abc12345 = ! character 1
Z = Z
x9y = x9y
9x = 9×x
sqr = sqr
sqrt1 = sqrt1
sqrt2 = sqrt2
sqrt(2) = √(2)
sqrt = ! syntax
Undef = Undef
undef = undef
undef1 = undef1
1→sqrt = ! syntax
1→undef = ! syntax
1→9x = ! syntax
x_1 = ! character 2
é = ! character 1
:forget Z = no Z
:forget abc1234 = no abc1234
:forget x9y = no x9y
:forget sqr = no sqr
:forget sqrt1 = no sqrt1
:forget Undef = no Undef
:forget 9x = ! command
:forget abc12345 = ! command
:forget a b = ! command
:forget x_1 = ! command
:forget undef = ! command
:forget é = ! command

a*b·c×d = a×b×c×d
√(2) = √(2)
1∛ = ! character 2
1- >x = ! character 4
.5 = ! character 1
1.5.2 = ! character 4
1e5 = e5
0.10 = 1/10
007.500 = 15/2
00000000000000000000000000000000000000007 = 7
1.000000000000000000000000000000000000000000000000000000000000 = 1
x+1→y = 1+x
x+1->y = 1+x
y = 1+x

2 3 = ! syntax
x2 3 = ! syntax
√√(2) = ! syntax
() = ! syntax
(1 = ! syntax
1) = ! syntax
1++2 = ! syntax
2^ = ! syntax
→x = ! syntax
1→ = ! syntax
1→2 = ! syntax
1→x→y = ! syntax
1→x+1 = ! syntax
(1→x) = ! syntax
1→x = 1
x = 1

1+2×x = 1+2×x
2+ = ! syntax
x = x
x$ = ! character 2
--------------------------------------------------------------1 = 1
---------------------------------------------------------------1 = -1
----------------------------------------------------------------1 = ! deep
√(x)^2→y = x
y = x

1.000000000000000000000000000000000000001 = ! number 1
0.00000000000000000000000000000000000001 = 1/100000000000000000000000000000000000000
0.000000000000000000000000000000000000001 = ! number 1
1+170141183460469231731687303715884105728 = ! number 3
17014118346046923173168730371588410572.70 = 170141183460469231731687303715884105727/10
17014118346046923173168730371588410572.8 = ! number 1
99999999999999999999999999999999999999999999999999$ = ! number 1
$99999999999999999999999999999999999999999999999999 = ! character 1
1 $ 99999999999999999999999999999999999999999999999999 = ! character 3

170141183460469231731687303715884105727 = 170141183460469231731687303715884105727
170141183460469231731687303715884105727+1 = ! overflow 170141183460469231731687303715884105727+1
170141183460469231731687303715884105728 = ! number 1

√(9223372036854775783)×√(9223372036854775643)×√(9223372036854775549) = ! overflow 85070591730234614113402964855534653469×9223372036854775549
(9223372036854775783+9223372036854775783×√(3))×(9223372036854775783+4611686018427387904×√(3)) = ! overflow 85070591730234615404675050015203263089+127605887595351923452889026404858986496

$ --pool 64
1+1+1+1 = ! full needed 16 free 0
1+1 = 2

$ --pool 104
1+1+1+1 = 4

$ --pool=64
1/2/3 = ! full needed 16 free 8
:pool = pool 16/64 nodes 1 trees 1

$ --pool 64
9223372036854775807+9223372036854775808 = ! full needed 40 free 32

$ --pool 64
0.5+0.5 = ! full needed 40 free 8

$ --pool 104
0.5 = 1/2
0.5+0.5 = ! full needed 40 free 24
-x = -x
y = y

$ --pool 64
170141183460469231731687303715884105727 = 170141183460469231731687303715884105727
:layout = ! full needed 40 free 24

$ --pool 64
a+b→x = a+b
x = ! full needed 40 free 8
:pool = pool 40/64 nodes 3 trees 1

$ --pool 128
9 = 9

$ --pool=0064
1+1+1+1 = ! full needed 16 free 0

$ --pool 00000000000000000064
1+1+1+1 = ! full needed 16 free 0

$ --pool 524280
1+2+3 = 6

1/3+1/6 = 1/2

√(8)+√(18) = 5×√(2)
1/(√(2)+√(3)) = -√(2)+√(3)

x/x = 1
0^0 = undef
1/0 = undef
√(-1) = undef
x^2×x^-2 = 1
√(0) = 0

2^126 = 85070591730234615865843651857942052864
2^127 = ! overflow 2^127
2^-3 = 1/8
-2^2 = -4
2^3^2 = 512

√(200280098) = 10007×√(2)
1/(1+√(2)+√(3)) = 1/(1+√(2)+√(3))
x+√(2)×x = (1+√(2))×x

(-3+√(17))/4 = -3/4+√(17)/4
(√(2)+√(3))^2 = 5+2×√(6)
√(2)×√(3) = √(6)
√(1/2) = √(2)/2

(x+√(2))^-1×(x+√(3))^-1 = 1/((√(2)+x)×(√(3)+x))

(x+1)-(x+1) = 0
(x×y)^2/x = x×y^2
1/2x = 1/(2×x)
√(x)×√(x) = x
2x(x+1)-2x^2 = 2×x×(1+x)-2×x^2

0.1+0.2 = 3/10
2^(1/2) = √(2)
√(1+√(2)) = √(1+√(2))

5→x = 5
x+1 = 6
7→x = 7
x+ans = 14
:pool = pool 32/32768 nodes 2 trees 2

x+1→y = 1+x
5→x = 5
y = 6
5→ans = ! reserved

x+1→x = ! circular x
:pool = pool 16/32768 nodes 1 trees 1

:pool = pool 16/32768 nodes 1 trees 1
5→x = 5
:pool = pool 16/32768 nodes 1 trees 1
5→y = 5
:pool = pool 32/32768 nodes 2 trees 2

5→x = 5
5→y = 5
7 = 7
:pool = pool 48/32768 nodes 3 trees 3
:forget x = forgot x
:pool = pool 32/32768 nodes 2 trees 2
:forget x = no x

1/2 = 1/2
:pool = pool 40/32768 nodes 3 trees 1

:names = no names
x+1→y = 1+x
√(8)→r = 2×√(2)
:names = 1+x→y
| 2×√(2)→r
5→x = 5
:names = 1+x→y
| 2×√(2)→r
| 5→x
y = 6
7→y = 7
:names = 2×√(2)→r
| 5→x
| 7→y
:forget r = forgot r
:names = 5→x
| 7→y
:names x = ! command
1/0→q = undef
:names = 5→x
| 7→y

:help = :help [WORD]       these lines, or that of a word with an example
| :pool              how full the pool is
| :dump              the bytes of the pool
| :names             what is stored, in lines that store it again
| :forget X          what is stored under the name X is forgotten
| :after K           a line is interrupted after K nodes
| :layout            the layout of the last answer in one line
| :latex             the last answer as LaTeX
| :draw              the picture of the last answer
| :diff X LINE       the derivative of the line with respect to the name X
| :solve EQUATIONS   the values of the names in linear equations
| :roots X EQUATION  all roots of a polynomial equation in the name X
| :expand LINE       the line as a sum of multiples of products of names
| :decimal N LINE    the nearest decimal of the line with N places, at most 38
| :sign LINE         whether the line is positive, negative or zero
:help diff = :diff X LINE       the derivative of the line with respect to the name X
| for example :diff x x^3/3
:help help = :help [WORD]       these lines, or that of a word with an example
| for example :help diff
:help  diff  = :diff X LINE       the derivative of the line with respect to the name X
| for example :diff x x^3/3
:help latex = :latex             the last answer as LaTeX
| for example x/2 ; :latex
:help roots = :roots X EQUATION  all roots of a polynomial equation in the name X
| for example :roots x x^2=x+1
:help Diff = ! command
:help diff x = ! command
:help nothing = ! command
:help:help = ! command
:names = no names

:dump = 01 01 00 00 01 00 00 00
| 00 00 00 00 00 00 00 00

7 = 7
:dump = 01 01 01 00 01 00 00 00
| 07 00 00 00 00 00 00 00
5→x = 5
:dump = 01 01 00 00 02 00 00 00
| 05 00 00 00 00 00 00 00
2→y = 2
√(z) = √(z)
:dump = 01 01 00 00 01 00 00 00
| 05 00 00 00 00 00 00 00
| 01 01 01 00 01 00 00 00
| 02 00 00 00 00 00 00 00
| 07 00 03 00 01 00 01 00
| 02 00 02 00 01 00 00 00
| 7a 00 00 00 00 00 00 00
:forget x = forgot x
:dump = 01 01 01 00 01 00 00 00
| 02 00 00 00 00 00 00 00
| 07 00 03 00 01 00 01 00
| 02 00 02 00 01 00 00 00
| 7a 00 00 00 00 00 00 00
9→x = 9
:dump = 01 01 01 00 01 00 00 00
| 02 00 00 00 00 00 00 00
| 01 01 00 00 02 00 00 00
| 09 00 00 00 00 00 00 00

$ --pool 64
7 = 7
:pool = pool 16/64 nodes 1 trees 1

:POOL = ! command
:pool x = ! command
:forget = ! command
:forget 1 = ! command
:forget sqrt = ! command
 :pool  = pool 16/32768 nodes 1 trees 1
:forget ans = ! reserved

:after 3 = after 3
1+2+3 = ! interrupted
:after 4 = after 4
1+2+3 = 6
7 = ! interrupted
:after 0 = no breaker

:after 0 = after 0
:pool = pool 16/32768 nodes 1 trees 1
1 = ! interrupted

:after 18446744073709551616 = ! command
:after 007 = after 7

$ --interrupt 0
1 = ! interrupted
1 = 1

$ --interrupt=3
1 = 1
1 = 1
1 = 1
1 = ! interrupted
1 = 1

$ --interrupt=3
1+2+3 = ! interrupted
1+2+3 = 6

$ --interrupt=4 --pool=64000
1+2+3 = 6
7 = ! interrupted
7 = 7

1/2 = 1/2
:draw = 1
| -
| 2

√(x)/2 = √(x)/2
:layout = ((√(x))/(2))
:draw =  _
| √x
| --
| 2

$ --draw
x^2 = x^2
|  2
| x

$ --pool 64
:layout = 0
:draw = 0

$ --draw --pool 2000
1/2 = 1/2
| 1
| -
| 2
1/0 = undef
5→x = 5
| 5
2+ = ! syntax
:draw = 5

$ --draw
x = x
| x
:draw = x

$ --draw --pool 200
x = x
| x
a+b+c+d+e = a+b+c+d+e
| ! full needed 8 free 0
:draw = ! full needed 8 free 0
:layout = ! full needed 8 free 0
:pool = pool 88/200 nodes 6 trees 1

√(√(√(√(√(√(√(√(√(√(√(√(√(√(√(√(√(√(√(√(√(√(√(√(√(√(√(√(√(√(√(√(√(√(√(√(√(√(√(√(x))))))))))))))))))))))))))))))))))))))))→y = √(√(√(√(√(√(√(√(√(√(√(√(√(√(√(√(√(√(√(√(√(√(√(√(√(√(√(√(√(√(√(√(√(√(√(√(√(√(√(√(x))))))))))))))))))))))))))))))))))))))))
√(√(√(√(√(√(√(√(√(√(√(√(√(√(√(√(√(√(√(√(√(√(√(√(√(√(√(√(√(√(y)))))))))))))))))))))))))))))) = ! deep

0→a1 = 0
0→a2 = 0
0→a3 = 0
0→a4 = 0
0→a5 = 0
0→a6 = 0
0→a7 = 0
0→a8 = 0
0→a9 = 0
0→a10 = 0
0→a11 = 0
0→a12 = 0
0→a13 = 0
0→a14 = 0
0→a15 = 0
0→a16 = 0
0→a17 = 0
0→a18 = 0
0→a19 = 0
0→a20 = 0
0→a21 = 0
0→a22 = 0
0→a23 = 0
0→a24 = 0
0→a25 = 0
0→a26 = 0
0→a27 = 0
0→a28 = 0
0→a29 = 0
0→a30 = 0
0→a31 = 0
0→a32 = 0
0→a33 = 0
0→a34 = 0
0→a35 = 0
0→a36 = 0
0→a37 = 0
0→a38 = 0
0→a39 = 0
0→a40 = 0
0→a41 = 0
0→a42 = 0
0→a43 = 0
0→a44 = 0
0→a45 = 0
0→a46 = 0
0→a47 = 0
0→a48 = 0
0→a49 = 0
0→a50 = 0
0→a51 = 0
0→a52 = 0
0→a53 = 0
0→a54 = 0
0→a55 = 0
0→a56 = 0
0→a57 = 0
0→a58 = 0
0→a59 = 0
0→a60 = 0
0→a61 = 0
0→a62 = 0
0→a63 = 0
0→a64 = 0
0→b = ! names full
0→a1 = 0

$ --pool 200
x = x

√(2)+√(3)+√(5)+√(7)+√(11)+√(13)+√(17) = √(2)+√(3)+√(5)+√(7)+√(11)+√(13)+√(17)
2^(x+1) = 2^(1+x)
2^62 = 4611686018427387904
x^y×x^z = x^(y+z)

53/2+2/53 = 2813/106
√(95)+√(27) = 3×√(3)+√(95)

-a-b = -a-b

:roots x x^2=x+1 = x=1/2-√(5)/2;x=1/2+√(5)/2
:roots x x^2=2 = x=-√(2);x=√(2)
:roots x x^2=2x-1 = x=1;x=1
:roots x x^2+1=0 = none
:roots x x^2=0 = x=0;x=0
:roots x 2x=3 = x=3/2
:roots x x^2-x=(x-1)×(x+1) = x=1
:roots x x=x = x free
:roots x x=x+1 = none
:roots x 0=0 = x free
:roots x 0=1 = none
:roots x x^2/3-x/7=1/5 = x=3/14-√(3165)/70;x=3/14+√(3165)/70
:roots x 4x^2=9 = x=-3/2;x=3/2
:roots x -x^2=-8 = x=-2×√(2);x=2×√(2)
:roots x 3x^2+6x=1 = x=-1-2×√(3)/3;x=-1+2×√(3)/3
:roots rate 1000×(1+rate)^2=1210 = rate=-21/10;rate=1/10

:roots x x^3=1 = x=1
:roots x x^3=2 = ! degree
:roots x x^3-6x^2+11x=6 = x=1;x=2;x=3
:roots x 6x^3+6x=11x^2+1 = x=1/3;x=1/2;x=1
:roots x (3x-2)×(x^2-2)=0 = x=2/3;x=-√(2);x=√(2)
:roots x x^5=x^3 = x=-1;x=0;x=0;x=0;x=1
:roots x x^4=5x^2-4 = x=-2;x=-1;x=1;x=2
:roots x x^4=5x^2-6 = ! degree
:roots x (x-1000)^3=0 = x=1000;x=1000;x=1000
:roots x (x-1001)^3=0 = ! degree
:roots x (x-1001)^2×(x-1)=0 = x=1;x=1001;x=1001
:roots x (1000x-999)×(x^2+x+1)=0 = x=999/1000
:roots x x^32×x=0 = ! degree
:roots x x^32×x=x^33 = ! not polynomial
:roots x x^32×x=x×x^32 = x free

:roots = ! command
:roots x = ! command
:roots x x = ! command
:roots x x= = ! command
:roots x =x = ! command
:roots x x=1=1 = ! command
:roots x x=1;x=2 = ! command
:roots x x=1;2 = ! command
:roots x=1 = ! command
:roots 2 x=1 = ! command
:roots x x=1→y = ! command
:roots x 2+=1 = ! syntax
:roots x x=$ = ! character 12
:roots x x=y = ! too many
:roots x a×x^2=b = ! too many
:roots x √(y)=1 = ! too many
:roots x √(x)=1 = ! not polynomial
:roots x 1/x=2 = ! not polynomial
:roots x x^2=√(2) = ! not polynomial
:roots x x^0=1 = ! not polynomial
:roots x undef=x = ! not polynomial
:roots x x^2+13043817825332782213x+1=0 = ! overflow 13043817825332782213×13043817825332782213

5→x = 5
:roots x x^2=25 = x free
:roots x x^2=2 = none
:roots y y^2=x+4 = y=-3;y=3
:forget x = forgot x
:roots x x^2=25 = x=-5;x=5
ans = 5
:roots ans ans=1 = none
:after 2 = after 2
:roots x x=1 = ! interrupted
:after 3 = after 3
:roots x x=1 = x=1
:pool = pool 16/32768 nodes 1 trees 1

$ --pool 128
:roots x x=1 = x=1

$ --pool 64
:roots x x^2=2 = ! full needed 16 free 8
:roots x x+1=undef = ! full needed 8 free 0

:roots x x^2=1002301750441 = x=-√(1002301750441);x=√(1002301750441)
:roots x x^2=170141183460469231731687303715884105727 = x=-√(170141183460469231731687303715884105727);x=√(170141183460469231731687303715884105727)
:roots x x^2=100140049 = x=-10007;x=10007

1/(1+√(2)+√(3)) = 1/(1+√(2)+√(3))
:latex = \\frac{1}{1+\\sqrt{2}+\\sqrt{3}}
x^2×rate2/√(x1) = rate2×x^2/√(x1)
:latex = \\frac{\\mathrm{rate2} \\times x^{2}}{\\sqrt{x_{1}}}
-3/4+√(17)/4 = -3/4+√(17)/4
:latex = -\\frac{3}{4}+\\frac{\\sqrt{17}}{4}
(1/2+x)^2/√(x) = (1/2+x)^2/√(x)
:latex = \\frac{\\left(\\frac{1}{2}+x\\right)^{2}}{\\sqrt{x}}
2^(1/3) = 2^(1/3)
:latex = 2^{\\frac{1}{3}}
(x-1)×(x+1) = (-1+x)×(1+x)
:latex = \\left(-1+x\\right) \\times \\left(1+x\\right)
2^-x^2 = 2^-x^2
:latex = 2^{-x^{2}}
:latex x = ! command
0 = 0
:latex = 0

√(x)/2 = √(x)/2
:latex = \\frac{\\sqrt{x}}{2}
x+y-2×z = x+y-2×z
:latex = x+y-2 \\times z
1/(1+1/(1+1/x)) = 1/(1+1/(1+1/x))
:latex = \\frac{1}{1+\\frac{1}{1+\\frac{1}{x}}}
(a+b)^2 = (a+b)^2
:latex = \\left(a+b\\right)^{2}
-x^(-y) = -x^-y
:latex = -x^{-y}
(a/b)^2 = a^2/b^2
:latex = \\frac{a^{2}}{b^{2}}
x^y^z = x^y^z
:latex = x^{y^{z}}
abcdefg×(x+1/2) = abcdefg×(1/2+x)
:latex = \\mathrm{abcdefg} \\times \\left(\\frac{1}{2}+x\\right)
170141183460469231731687303715884105727/3 = 170141183460469231731687303715884105727/3
:latex = \\frac{170141183460469231731687303715884105727}{3}
2^(x+1) = 2^(1+x)
:latex = 2^{1+x}
√((a+b)/(c-d)) = √((a+b)/(c-d))
:latex = \\sqrt{\\frac{a+b}{c-d}}
7→x1 = 7
:latex = 7
x1+y12 = 7+y12
:latex = 7+y_{12}

$ --pool 64
170141183460469231731687303715884105727 = 170141183460469231731687303715884105727
:latex = ! full needed 40 free 24

$ --pool 200
a+b+c+d+e = a+b+c+d+e
:layout = ! full needed 8 free 0
:latex = ! full needed 8 free 0
:pool = pool 88/200 nodes 6 trees 1

";

/// Generated sessions, and their summaries.
pub const GENERATED: &str = "\
$ --pool 1024 --gen 1
1
| lines 2000 shown 1750 stored 250 undef 0 refused 0 bytes 27383

$ --draw --gen 1
| lines 2000 shown 1750 stored 250 undef 0 refused 0 bytes 27383

$ --draw --gen=1 --pool=1024
| lines 2000 shown 1750 stored 250 undef 0 refused 0 bytes 27383

:decimal 20 √(10^20+1)-10^10 = ≈0.00000000005000000000
:decimal 30 √(10^20+1)-10^10 = ≈0.000000000050000000000000000000
:decimal 10 √(10^20+1)-10^10 = ≈0.0000000000
:decimal 11 √(10^20+1)-10^10 = ≈0.00000000005
:decimal 0 1/2+(√(2)-1)^99 = ≈1
:decimal 0 1/2-(√(2)-1)^99 = ≈0
:decimal 0 -1/2-(√(2)-1)^99 = ≈-1
:decimal 0 (√(2)-1)^99-1/2 = ≈0
:decimal 38 (√(2)-1)^99 = ≈0.00000000000000000000000000000000000001
:decimal 2 √(2)+√(3)-√(10) = ≈-0.02
:decimal 0 1/2+((√(2)-1)^24×(2-√(3))^16×(5-2√(6))^9)^4 = ≈1
:decimal 0 1/2-((√(2)-1)^24×(2-√(3))^16×(5-2√(6))^9)^4 = ≈0
:decimal 9 √(10^18+1)-10^9 = ≈0.000000000
:decimal 10 √(10^18+1)-10^9 = ≈0.0000000005

:decimal 3 1/8 = 0.125
:decimal 10 ans = 0
:decimal 2 1/8 = ≈0.13
:decimal 38 1/8 = 0.125
:decimal 0 2 = 2
:decimal 5 2 = 2
:decimal 1 -5/2 = -2.5
:decimal 3 100 = 100
:decimal 4 0.0500 = 0.05
:decimal 2 0/7 = 0
:decimal 1 √(2)×√(2) = 2
:decimal 3 x-x = 0
:decimal 6 (√(2)+1)×(√(2)-1)+1/64 = 1.015625
:decimal 5 1/64 = ≈0.01563
:decimal 4 1/64 = ≈0.0156
:decimal 38 2^-38 = 0.00000000000363797880709171295166015625
:decimal 37 2^-38 = ≈0.0000000000036379788070917129516601563
:decimal 38 170141183460469231731687303715884105727/2 = 85070591730234615865843651857942052863.5

:decimal = ! command
:decimal 3 = ! command
:decimal x = ! command
:decimal x 1 = ! command
:decimal 39 1/3 = ! command
:decimal -1 1/3 = ! command
:decimal 3.5 1/3 = ! command
:decimal 3(1/3) = ! command
:decimals 3 1 = ! command
:decimal 000000000000000000003 1/3 = ! command
:decimal 3 1/3→x = ! command
:decimal 3 1/3→ans = ! command
:decimal 3 1/ = ! syntax
:decimal 3 2$3 = ! character 13
:decimal 3 170141183460469231731687303715884105728 = ! number 12
:decimal 2 ---------------------------------------------------------------1 = -1
:decimal 2 ----------------------------------------------------------------1 = ! deep
:decimal 2 x = ! no decimal
:decimal 2 x+1/3 = ! no decimal
:decimal 2 √(x) = ! no decimal
:decimal 3 1/(1+√(2)+√(3)) = ! no decimal
:decimal 3 2^(1/3) = ! no decimal
:decimal 3 √(1+√(2)) = ! no decimal
:decimal 2 1/0 = undef
:decimal 2 √(-1) = undef
:decimal 2 undef+x = undef
:decimal 2 1/(x-x) = undef
:decimal 2 2^127 = ! overflow 2^127
:decimal 2 x+2^127 = ! overflow 2^127
:decimal 2 1/0+2^127 = ! overflow 2^127
:decimal 5 3 4 = ! syntax
:decimal 38 1/3+ = ! syntax

:decimal 4 √(2)+√(3) = ≈3.1463
:decimal 0 √(2) = ≈1
:decimal 0 √(3) = ≈2
:decimal 2 -√(2) = ≈-1.41
:decimal 10 √(2)/2 = ≈0.7071067812
:decimal 20 (1+√(5))/2 = ≈1.61803398874989484820
:decimal 4 1/(√(2)+√(3)) = ≈0.3178
:decimal 3 √(2)-√(3) = ≈-0.318
:decimal 8 √(8)+√(18) = ≈7.07106781
:decimal 38 √(2) = ≈1.41421356237309504880168872420969807857
:decimal 38 √(170141183460469231731687303715884105727) = ≈13043817825332782212.34957180625250836884494395417577422670
:decimal 38 170141183460469231731687303715884105727×√(2) = ≈240615969168004511545033772477625056925.70076717869005332820652890350169080968
:decimal 3 √(2)/1000000 = ≈0.000
:decimal 3 -√(2)/1000000 = ≈0.000
:decimal 5 √(1002301750441) = ≈1001150.21372
:decimal 5 2^(1/2) = ≈1.41421
:decimal 5 2^(-3/2) = ≈0.35355

:decimal 5 1/3 = ≈0.33333
:decimal 5 2/3 = ≈0.66667
:decimal 0 2/3 = ≈1
:decimal 0 -2/3 = ≈-1
:decimal 0 1/3 = ≈0
:decimal 3 -1/3000 = ≈0.000
:decimal 3 -2/3000 = ≈-0.001
:decimal 1 99/100 = ≈1.0
:decimal 2 99.999 = ≈100.00
:decimal 4 -0.00004 = ≈0.0000
:decimal 10 355/113 = ≈3.1415929204
:decimal 38 1/3 = ≈0.33333333333333333333333333333333333333
:decimal 38 1/170141183460469231731687303715884105727 = ≈0.00000000000000000000000000000000000001
:decimal 37 170141183460469231731687303715884105727/3 = ≈56713727820156410577229101238628035242.3333333333333333333333333333333333333

√(8)→r = 2×√(2)
:decimal 3 r = ≈2.828
ans = 2×√(2)
:decimal 3 r+x = ! no decimal
3→x = 3
:decimal 3 r+x = ≈5.828
:decimal 007 x = 3
:pool = pool 64/32768 nodes 5 trees 2
ans = 3
:after 1 = after 1
:decimal 2 1/3+1 = ! interrupted
:decimal 2 1/3+1 = ≈1.33
:decimal 2 y→y = ! command
:forget r = forgot r
:decimal 2 r = ! no decimal
:decimal 2 111111111111111111111111111111 = 111111111111111111111111111111

$ --pool 64
:decimal 2 1+1+1+1 = ! full needed 16 free 0
:decimal 3 ans = 0
:decimal 2 x+1+1+1 = ! full needed 16 free 0
:decimal 2 1+ = ! syntax

:decimal 0 1/2 = ≈1
:decimal 0 -1/2 = ≈-1
:decimal 0 3/2 = ≈2
:decimal 0 5/2 = ≈3
:decimal 0 -5/2 = ≈-3
:decimal 2 1/8 = ≈0.13
:decimal 2 -1/8 = ≈-0.13
:decimal 1 0.25 = ≈0.3
:decimal 1 0.35 = ≈0.4
:decimal 1 0.05 = ≈0.1
:decimal 1 0.049 = ≈0.0
:decimal 37 2^-38 = ≈0.0000000000036379788070917129516601563
:decimal 0 85070591730234615865843651857942052863/2 = ≈42535295865117307932921825928971026432

:sign √(2)-3/2 = negative
:sign √(10^20+1)-10^10 = positive
:sign x-x = zero
:sign -1/3 = negative
:sign 1/2 = positive
:sign (√(2)-1)^99 = positive
:sign √(2)+√(3)-√(10) = negative
:sign 1/0 = undef
:sign x = ! no decimal
:sign 1+ = ! syntax
:sign = ! command
:sign 1→x = ! command
7→x = 7
:sign x-8 = negative
:pool = pool 16/32768 nodes 1 trees 1
";
