/// Sessions in the form that `scripts` reads.
pub const SAMPLES: &str = "\
1/3+1/6
0.1+0.2
| 1/2
| 3/10

√(8)+√(18)
1/(√(2)+√(3))
| 5×√(2)
| -√(2)+√(3)

x+√(2)×x
(x×y)^2/x
x/x
| (1+√(2))×x
| x×y^2
| 1

2^126
x^(3/2)
2^(-1/2)
| 85070591730234615865843651857942052864
| √(x)^3
| √(2)/2

√(8)→r
r×z
ans/r
| 2×√(2)
| 2×√(2)×z
| z

x+1→y
5→x
y
z+1→z
| 1+x
| 5
| 6
| ! circular z

1/0
0^0
√(-1)
| undef
| undef
| undef

2+
2$3
abcdefgh
| ! syntax
| ! character 2
| ! character 1

170141183460469231731687303715884105728
2^127
| ! number 1
| ! overflow 2^127

7→k
:pool
:forget k
:forget k
| 7
| pool 16/32768 nodes 1 trees 1
| forgot k
| no k

x+1→y
5→x
:names
| 1+x
| 5
| 1+x→y
| 5→x

√(x)/2
:layout
| √(x)/2
| ((√(x))/(2))

:after 3
1+2+3
7
| after 3
| ! interrupted
| 7

:diff x (x+1)^2
:diff x x^y
| 2+2×x
| ! no derivative

:solve x+y=3
:solve x=y^2
| x=3-y,y free
| ! not linear 1

:expand (x+y)×(x-y)
:expand 1/x
| x^2-y^2
| ! not polynomial

$ --pool 64
1+1+1+1
| ! full needed 16 free 0

x+1→y
5→x
y
| 1+x
| 5
| 6

7→x
x+1→x
| 7
| 8

x+1→x
| ! circular x

:names
| no names

x+1→y
√(8)→r
:names
| 1+x
| 2×√(2)
| 1+x→y
| 2×√(2)→r

:diff x x^3
| 3×x^2

:diff x 1/x
| -1/x^2

:diff x √(x)
| 1/(2×√(x))

:diff x (x+1)^2
| 2+2×x

:diff x y
| 0

:diff x x^y
| ! no derivative

5→x
:diff x x
| 5
| 0

:diff x x→y
| ! command

:solve x+y=3;x-y=1
| x=2,y=1

:solve x+2y=1
| x=1-2×y,y free

:solve x=1;x=2
| none 1,-1

:solve 1=1
| true

5→x
:solve x+y=3;2(y-1)/3=z
| 5
| y=-2,z=-2

:solve x×y=1
| ! not linear 1

:solve x
| ! command

:expand (x+1)^2
| 1+2×x+x^2

:expand (x+y)×(x-y)
| x^2-y^2

:expand x^2+x×y/2
| x×y/2+x^2

:expand (x+1)-(x+1)
| 0

5→x
:expand (x+y)^2
| 5
| 25+10×y+y^2

:expand 1/x
:expand √(2)
| ! not polynomial
| ! not polynomial

:expand x→y
| ! command

$ --draw
-3/4+√(17)/4
| -3/4+√(17)/4
|     __
|  3 √17
| --+---
|  4  4

$ --draw
1/(1+√(2)+√(3))
| 1/(1+√(2)+√(3))
|    1
| -------
|    _  _
| 1+√2+√3

$ --draw
(1/2+x)^2/√(x)
| (1/2+x)^2/√(x)
| (1  )2
| (-+x)
| (2  )
| ------
|    _
|   √x

$ --draw
1/(1+1/(1+1/x))
| 1/(1+1/(1+1/x))
|   1
| -----
|    1
| 1+---
|     1
|   1+-
|     x

$ --draw
√(√(1+x)/2)
| √(√(1+x)/2)
|  ____
|   ___
|  √1+x
| √----
|   2

√2
| ! syntax

sqrt 2
| ! syntax

3 1/2
| ! syntax

+3
| ! syntax

2**3
| ! syntax

4÷2
| ! character 2

1,5
| ! character 2

x²
| ! character 2

3!
| ! character 2

50%
| ! character 3

−3
| ! character 1

a-b+c
| a-b+c

a/b/c
| a/(b×c)

2^3^2
| 512

-2^2
| -4

2^-x^2
| 2^-x^2

2×-3
| -6

2--3
| 5

-a×b
| -a×b

1/2x
| 1/(2×x)

x^2y
| x^2×y

√(x+1)^2
| 1+x

:decimal 4 √(2)+√(3)
| ≈3.1463

:decimal 3 1/8
:decimal 2 1/8
:decimal 5 1/3
| 0.125
| ≈0.13
| ≈0.33333

:decimal 20 (1+√(5))/2
| ≈1.61803398874989484820

√(8)→r
:decimal 3 r
ans
| 2×√(2)
| ≈2.828
| 2×√(2)

:sign √(2)-3/2
:sign x-x
| negative
| zero

:decimal 2 1/0
:decimal 2 x
| undef
| ! no decimal

:decimal 39 1/3
| ! command

√(x)/2
:latex
| √(x)/2
| \\frac{\\sqrt{x}}{2}

:roots x x^2=x+1
:roots x x^3=2
| x=1/2-√(5)/2;x=1/2+√(5)/2
| ! degree

:roots x x^2=x+1
| x=1/2-√(5)/2;x=1/2+√(5)/2

:roots x x^2=2
:roots x -x^2=-8
| x=-√(2);x=√(2)
| x=-2×√(2);x=2×√(2)

:roots x x^2=2x-1
:roots x x^2=0
| x=1;x=1
| x=0;x=0

:roots x x^2+1=0
:roots x x=x+1
| none
| none

:roots x x=x
:roots x 0=1
| x free
| none

:roots x 2x=3
:roots x x^2-x=(x-1)×(x+1)
| x=3/2
| x=1

:roots rate 1000×(1+rate)^2=1210
| rate=-21/10;rate=1/10

:roots x x^3=1
:roots x 6x^3+6x=11x^2+1
| x=1
| x=1/3;x=1/2;x=1

:roots x (3x-2)×(x^2-2)=0
| x=2/3;x=-√(2);x=√(2)

:roots x x^5=x^3
| x=-1;x=0;x=0;x=0;x=1

:roots x x^3=2
:roots x x^4=5x^2-6
| ! degree
| ! degree

:roots x (x-1000)^3=0
:roots x (x-1001)^3=0
| x=1000;x=1000;x=1000
| ! degree

:roots x (x-1001)^2×(x-1)=0
| x=1;x=1001;x=1001

5→x
:roots x x^2=25
:roots y y^2=x+4
| 5
| x free
| y=-3;y=3

:roots x x=y
:roots x √(y)=1
| ! too many
| ! too many

:roots x √(x)=1
:roots x 1/x=2
| ! not polynomial
| ! not polynomial

:roots x x^2+13043817825332782213x+1=0
| ! overflow 13043817825332782213×13043817825332782213

:roots x 2+=1
:roots x x=$
| ! syntax
| ! character 12

:roots x x
:roots x x=1;x=2
:roots x x=1→y
| ! command
| ! command
| ! command

:after 2
:roots x x=1
:roots x x=1
| after 2
| ! interrupted
| x=1

$ --pool 64
:roots x x^2=2
| ! full needed 16 free 8

1/(1+√(2)+√(3))
:latex
| 1/(1+√(2)+√(3))
| \\frac{1}{1+\\sqrt{2}+\\sqrt{3}}

x^2×rate2/√(x1)
:latex
| rate2×x^2/√(x1)
| \\frac{\\mathrm{rate2} \\times x^{2}}{\\sqrt{x_{1}}}

(1/2+x)^2/√(x)
:latex
| (1/2+x)^2/√(x)
| \\frac{\\left(\\frac{1}{2}+x\\right)^{2}}{\\sqrt{x}}

-3/4+√(17)/4
:latex
| -3/4+√(17)/4
| -\\frac{3}{4}+\\frac{\\sqrt{17}}{4}

2^-x^2
:latex
2^(1/3)
:latex
| 2^-x^2
| 2^{-x^{2}}
| 2^(1/3)
| 2^{\\frac{1}{3}}

√((a+b)/(c-d))
:latex
| √((a+b)/(c-d))
| \\sqrt{\\frac{a+b}{c-d}}

:latex
:latex x
| 0
| ! command

$ --pool 64
170141183460469231731687303715884105727
:latex
| 170141183460469231731687303715884105727
| ! full needed 40 free 24

1/(√(2)+√(3))
:decimal 10 ans
x+1→y
y^2-x^2
:expand ans
:diff x √(y)
:solve y=3
:roots x x^2=x+1
2^127
√(z)/(1+z)
:draw
| -√(2)+√(3)
| ≈0.3178372452
| 1+x
| -x^2+(1+x)^2
| 1+2×x
| 1/(2×√(1+x))
| x=2
| x=1/2-√(5)/2;x=1/2+√(5)/2
| ! overflow 2^127
| √(z)/(1+z)
|  _
| √z
| ---
| 1+z
";
