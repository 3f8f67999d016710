/// Sessions, each of lines with their answers behind an equals sign. An empty row begins another session.
pub const SESSIONS: &str = "\
x+1→y = 1+x
5→x = 5
y = 6

x+1→x = ! circular x
:pool = pool 16/32768 nodes 1 trees 1

:pool = pool 16/32768 nodes 1 trees 1
5→x = 5
:pool = pool 16/32768 nodes 1 trees 1
5→y = 5
:pool = pool 32/32768 nodes 2 trees 2
7 = 7
:pool = pool 48/32768 nodes 3 trees 3
:forget x = forgot x
:pool = pool 32/32768 nodes 2 trees 2
:forget x = no x

1/2 = 1/2
:pool = pool 40/32768 nodes 3 trees 1

2$3 = ! character 2
2+ = ! syntax
abcdefgh = ! character 1
:nothing = ! command
5→ans = ! reserved

1/2→a = 1/2
a+ans = 1
a×ans = 1/2
ans^2→a = 1/4
a-ans = 0

y→x = y
z→y = z
2→z = 2
x+y+z = 6
x = 2
y = 2

x→x = ! circular x
1→x = 1
x→x = 1
x = 1

2→b = 2
b×b→c = 4
c-b→b = 2
b = 2
c = 4

√(2)→r = √(2)
r^2 = 2
r×r×r = 2×√(2)
1/(1+r) = -1+√(2)

1/0 = undef
0→z = 0
1/z = undef
z^0 = undef
z→y = 0
undef→q = undef
:forget z = forgot z
z = z

a+b→s = a+b
s^2→t = (a+b)^2
1→a = 1
2→b = 2
s = 3
t = 9
ans = 9

x×x→x = ! circular x
3→x = 3
x×x→x = 9
x = 9
ans+x = 18

:forget ans = ! reserved
:forget 1 = ! command
:forget = ! command
:forget sqrt = ! command
:forget x y = ! command
: pool = ! command
: = ! command
:POOL = ! command
:pool x = ! command
 :pool  = pool 16/32768 nodes 1 trees 1
:expand = ! command

ans = 0
ans→x = 0
7 = 7
x = 0
ans+x→x = 0
x = 0

0^0→x = undef
x = x
1→x = 1
1/0→x = undef
x = 1

x→y = x
y→x = ! circular x
x→y = x

2^127→x = ! overflow 2^127
x = x
2^126→x = 85070591730234615865843651857942052864
x+x = ! overflow 85070591730234615865843651857942052864+85070591730234615865843651857942052864

:after 3 = after 3
1+2+3 = ! interrupted
:after 4 = after 4
1+2+3 = 6
7 = ! interrupted
:after 0 = no breaker

:after 0 = after 0
:pool = pool 16/32768 nodes 1 trees 1
1 = ! interrupted
1 = 1

:after 5 = after 5
7 = 7
:after 0 = after 0
7 = ! interrupted
7 = 7
:after 2 = after 2
7 = 7
:after 3 = after 3
7 = 7
7 = 7
7 = 7
7 = ! interrupted
7 = 7
:after 0 = no breaker

√(ka+kb+kc+kd+ke+kf+kg+kh+ki+kj+kk+kl+km+kn+ko+kp+kq+kr+ks+kt)+√(aa+ab+ac+ad+ae+af+ag+ah+ai+aj+ak+al+am+an+ao+ap+aq+ar+as+at) = √(aa+ab+ac+ad+ae+af+ag+ah+ai+aj+ak+al+am+an+ao+ap+aq+ar+as+at)+√(ka+kb+kc+kd+ke+kf+kg+kh+ki+kj+kk+kl+km+kn+ko+kp+kq+kr+ks+kt)
√(ka+kb+kc+kd+ke+kf+kg+kh+ki+kj+kk+kl+km+kn+ko+kp+kq+kr+ks+kt)+√(aa+ab+ac+ad+ae+af+ag+ah+ai+aj+ak+al+am+an+ao+ap+aq+ar+as+at+au+av+aw+ax+ay) = √(aa+ab+ac+ad+ae+af+ag+ah+ai+aj+ak+al+am+an+ao+ap+aq+ar+as+at+au+av+aw+ax+ay)+√(ka+kb+kc+kd+ke+kf+kg+kh+ki+kj+kk+kl+km+kn+ko+kp+kq+kr+ks+kt)
√(ka+kb+kc+kd+ke+kf+kg+kh+ki+kj+kk+kl+km+kn+ko+kp+kq+kr+ks+kt+ku+kv+kw+kx+ky)+√(aa+ab+ac+ad+ae+af+ag+ah+ai+aj+ak+al+am+an+ao+ap+aq+ar+as+at) = √(aa+ab+ac+ad+ae+af+ag+ah+ai+aj+ak+al+am+an+ao+ap+aq+ar+as+at)+√(ka+kb+kc+kd+ke+kf+kg+kh+ki+kj+kk+kl+km+kn+ko+kp+kq+kr+ks+kt+ku+kv+kw+kx+ky)
√(ka+kb+kc+kd+ke+kf+kg+kh+ki+kj+kk+kl+km+kn+ko+kp+kq+kr+ks+kt)+√(aa+ab+ac+ad+ae+af+ag+ah) = √(aa+ab+ac+ad+ae+af+ag+ah)+√(ka+kb+kc+kd+ke+kf+kg+kh+ki+kj+kk+kl+km+kn+ko+kp+kq+kr+ks+kt)
√(ka+kb+kc+kd+ke+kf+kg+kh)+√(aa+ab+ac+ad+ae+af+ag+ah+ai+aj+ak+al+am+an+ao+ap+aq+ar+as+at) = √(aa+ab+ac+ad+ae+af+ag+ah+ai+aj+ak+al+am+an+ao+ap+aq+ar+as+at)+√(ka+kb+kc+kd+ke+kf+kg+kh)
√(ka+kb+kc+kd+ke+kf+kg+kh+ki+kj+kk+kl+km+kn+ko+kp+kq+kr+ks+kt)+√(aa+ab+ac) = √(aa+ab+ac)+√(ka+kb+kc+kd+ke+kf+kg+kh+ki+kj+kk+kl+km+kn+ko+kp+kq+kr+ks+kt)
√(ka+kb+kc)+√(aa+ab+ac+ad+ae+af+ag+ah+ai+aj+ak+al+am+an+ao+ap+aq+ar+as+at) = √(aa+ab+ac+ad+ae+af+ag+ah+ai+aj+ak+al+am+an+ao+ap+aq+ar+as+at)+√(ka+kb+kc)
7 = 7
:pool = pool 16/32768 nodes 1 trees 1

:after 007 = after 7
:after 18446744073709551615 = after 18446744073709551615
:after 18446744073709551616 = ! command
:after = ! command
:after x = ! command

1→x = 1
:after 1 = after 1
x+x→x = ! interrupted
x = 1

5→x = 5
10^-1×x→y = 1/2
x^y = √(5)
y-x = -9/2

9223372036854775807+1 = 9223372036854775808
9223372036854775808-1 = 9223372036854775807
-9223372036854775808-1 = -9223372036854775809
-9223372036854775809+1 = -9223372036854775808
-9223372036854775808+1 = -9223372036854775807
9223372036854775807×(-1) = -9223372036854775807
3037000499^2 = 9223372030926249001
3037000500^2 = 9223372037000250000
-9223372036854775808/(-1) = 9223372036854775808
9223372036854775808^-1 = 1/9223372036854775808
9223372036854775807/2 = 9223372036854775807/2
2^62×2-1 = 9223372036854775807
(-2)^63 = -9223372036854775808
(-2)^63-1 = -9223372036854775809
√(9223372036854775808) = 2147483648×√(2)
√(85070591730234615865843651857942052864) = 9223372036854775808
9223372036854775808/9223372036854775808 = 1
1/2+1/2 = 1
1/2+3/2 = 2
3/2-1/2 = 1
3/2×(2/3) = 1
x^9223372036854775807×x = x^9223372036854775808
x^-9223372036854775808 = 1/x^9223372036854775808
x^-9223372036854775808/x = 1/x^9223372036854775809
x^9223372036854775808/x = x^9223372036854775807
9223372036854775807×x+x = 9223372036854775808×x
√(x)^18446744073709551616 = x^9223372036854775808
x^(9223372036854775807/2) = √(x)^9223372036854775807

2^126×x+y+(2^126+1)×x-2^126×x = ! overflow 85070591730234615865843651857942052864+85070591730234615865843651857942052865
(2^126+1)×x+y+2^126×x-2^126×x = ! overflow 85070591730234615865843651857942052865+85070591730234615865843651857942052864
2^126×x+y-2^126×x+(2^126+1)×x = 85070591730234615865843651857942052865×x+y
x^(2^126)×y×x^(2^126+1)×x^(-5) = ! overflow 85070591730234615865843651857942052864+85070591730234615865843651857942052865
x^(2^126+1)×y×x^(2^126)×x^(-5) = ! overflow 85070591730234615865843651857942052865+85070591730234615865843651857942052864
x^(2^126)×y×x^(-5)×x^(2^126+1) = x^170141183460469231731687303715884105724×y

:diff x x^3 = 3×x^2
:diff x 1/x = -1/x^2
:diff x √(x) = 1/(2×√(x))
:diff x (x+1)^2 = 2+2×x
:diff x y = 0
:diff x x^y = ! no derivative
:diff x x^1000001 = ! no derivative
:diff x x^2×y/(1+x) = (2×x×y×(1+x)-x^2×y)/(1+x)^2
:diff x -x^-2 = 2/x^3
:diff x x/0 = undef
:diff x 1/0 = 0
:diff x = ! command
:diff = ! command
:diff 1 x = ! command
:diff x+1 = ! command
:diff sqrt x = ! command
:diff x x→y = ! command
:diff x 2$3 = ! character 10
 \t:diff  x  :pool = ! character 13
:diff x 170141183460469231731687303715884105728 = ! number 9
:diff x x×170141183460469231731687303715884105728 = ! number 12
:diff x 2+ = ! syntax
:diff ans ans = 0
:diff x x^2  = 2×x
5→x = 5
:diff x x = 0
:diff y x×y = 5
x = 5
:pool = pool 32/32768 nodes 2 trees 2
:after 1 = after 1
:diff y y = 1
:after 3 = after 3
:diff y y^2 = ! interrupted
:diff y √(y)^2×2^-127 = ! overflow 1/2^127
7 = 7

:solve x+y=3;x-y=1 = x=2,y=1
:solve x+2y=1 = x=1-2×y,y free
:solve y=2x;z=1 = x=y/2,y free,z=1
:solve b=2;a=1 = a=1,b=2
:solve x=1;x=2 = none 1,-1
:solve 2x=1;4x=3 = none 2,-1
:solve 1=1 = true
:solve 0=0;1=1 = true
:solve 3x=1 = x=1/3
:solve x×y=1 = ! not linear 1
:solve x=1;x^2=1 = ! not linear 2
:solve x = ! command
:solve = ! command
:solve x=1; = ! command
:solve x=1=1 = ! command
:solve x=1→y = ! command
:solve x=2$3 = ! character 11
:solve x=2+;y=1 = ! syntax
:solve x=1;x=1;x=1;x=1;x=1;x=1;x=1 = ! too many
:solve a+b+c+d=1;e+f+g=1 = ! too many
2→x = 2
:solve x+y=3 = y=1
y = y
:after 4 = after 4
:solve z=1 = z=1
:after 2 = after 2
:solve z=1 = ! interrupted
8 = 8

:expand (x+1)^2 = 1+2×x+x^2
:expand (x+y)×(x-y) = x^2-y^2
:expand x^2+x×y/2 = x×y/2+x^2
:expand (x+1)-(x+1) = 0
:expand (x+y)^2-x×y = x×y+x^2+y^2
:expand (x/2+y)×(2×x-y)+x×y/2 = 2×x×y+x^2-y^2
:expand (a×b×c×d×e×f×g×h+i)×(a×b×c×d×e×f×g×h-i) = a^2×b^2×c^2×d^2×e^2×f^2×g^2×h^2-i^2
:expand (a×b×c×d+e×f×g×h×i)^2-(a×b×c×d-e×f×g×h×i)^2 = 4×a×b×c×d×e×f×g×h×i
:expand 1/x = ! not polynomial
:expand √(2) = ! not polynomial
:expand x^33 = ! not polynomial
:expand = ! command
:expand x→y = ! command
:expand 2$3 = ! character 10
:expand 2+ = ! syntax
2→x = 2
:expand (x+y)^2 = 4+4×y+y^2
ans = 2
:pool = pool 32/32768 nodes 2 trees 2
:after 4 = after 4
:expand y+1 = 1+y
:after 2 = after 2
:expand y+1 = ! interrupted
:expand 2^127 = ! not polynomial
:expand 4^32×4^32 = ! overflow 18446744073709551616×18446744073709551616
8 = 8

:solve x+y-3=0;x-y-1=0 = x=2,y=1
:solve 2×y+3×z-7=0;4×x-6×z+1=0;4×x+2×y-3×z-6=0 = x=-1/4+3×z/2,y=7/2-3×z/2,z free
:solve 2×x-3×y+5×z+1=0;x+y+z-6=0;3×x-2×y+6×z+4=0 = none -1/9,-1/9,1/9
:solve 9223372036854775783×x+9223372036854775643×y+9223372036854775549×z+1=0;9223372036854775507×x\
+9223372036854775433×y+9223372036854775421×z+2=0;9223372036854775417×x+9223372036854775399×y\
+9223372036854775351×z+3=0 = ! overflow \
-9223372036854775643/9223372036854775783×682529530727253375650/304371277216207581519
:solve x+2×y-1=0 = x=1-2×y,y free
:solve 3+0×x=0 = none 1/3

:expand 2 = 2
:expand -2 = -2
:expand x = x
:expand x×x = x^2
:expand (x+y)×2/2 = x+y
:expand (x^2+2×x-2)^2 = 4-8×x+4×x^3+x^4
:expand (x/2-2/3)^2 = 4/9-2×x/3+x^2/4
:expand (x+1)^2-(x^2+x×2+1) = 0
:expand (x+y)^5-(x+y)^2×(x+y)^3 = 0
:expand (x+y)×((x+1)×(x-y))-(x-y)×(x+y)×(x+1) = 0
:expand (a+b+c+d+e+f+g+h+i)^2 = 2×a×b+2×a×c+2×a×d+2×a×e+2×a×f+2×a×g+2×a×h+2×a×i+2×b×c+2×b×d+2×b×e+2×b×f+2×b×g\
+2×b×h+2×b×i+2×c×d+2×c×e+2×c×f+2×c×g+2×c×h+2×c×i+2×d×e+2×d×f+2×d×g+2×d×h+2×d×i+2×e×f+2×e×g+2×e×h+2×e×i+2×f×g\
+2×f×h+2×f×i+2×g×h+2×g×i+2×h×i+a^2+b^2+c^2+d^2+e^2+f^2+g^2+h^2+i^2
:expand x/y = ! not polynomial
:expand (x+1)^20-(x+1)^20 = 0
:expand (x+y+z)^4 = 12×x×y×z^2+12×x×y^2×z+4×x×y^3+4×x×z^3+4×y×z^3+12×x^2×y×z+6×x^2×y^2+6×x^2×z^2+4×x^3×y+4×x^3×z+6×y^2×z^2+4×y^3×z+x^4+y^4+z^4
:expand (x^32)^32-(x^16)^32×(x^16)^32 = 0
:expand (((x^32)^8+y)^2)^2 = 4×x^256×y^3+6×x^512×y^2+4×x^768×y+x^1024+y^4
:after 1 = after 1
:expand (x+1)^2 = ! interrupted
:after 1 = after 1
:expand x = x

:diff x √(√(√(√(√(√(√(√(x)))))))) = \
1/(256×√(x)×√(√(x))×√(√(√(x)))×√(√(√(√(x))))×√(√(√(√(√(x)))))×√(√(√(√(√(√(x))))))×√(√(√(√(√(√(√(x)))))))×√(√(√(√(√(√(√(√(x)))))))))
:diff x ((((((((x+1)^2+1)^2+1)^2+1)^2+1)^2+1)^2+1)^2+1) = 64×(1+(1+x)^2)×(1+(1+(1+x)^2)^2)×(1+(1+(1+(1\
+x)^2)^2)^2)×(1+(1+(1+(1+(1+x)^2)^2)^2)^2)×(1+(1+(1+(1+(1+(1+x)^2)^2)^2)^2)^2)×(1+(1+(1+(1+(1+(1+(1\
+x)^2)^2)^2)^2)^2)^2)×(2+2×x)
:diff x x^3/3-x^2/2+x = 1-x+x^2
:diff x (x+y)×(x-y) = 2×x
:diff x 2^x = ! no derivative
:diff x √(x^2+1) = x/√(1+x^2)
:diff x (x^2+1)^-3 = -6×x/(1+x^2)^4
:diff x x^(1/2) = ! no derivative
:diff x undef = 0
:diff x -(x-y) = -1

:pool = pool 16/32768 nodes 1 trees 1
\x20:pool  = pool 16/32768 nodes 1 trees 1
:forget x = no x
:forget \t ans  = ! reserved
:after 007 = after 7
:after 00000000000000000007 = after 7
:after 18446744073709551615 = after 18446744073709551615
:after 18446744073709551616 = ! command
:after 000000000000000000007 = ! command
:after -1 = ! command
:after = ! command
:after3 = ! command
:pool x = ! command
: pool = ! command
:POOL = ! command
: = ! command
:forget = ! command
:forget 1 = ! command
:forget sqrt = ! command
:forget abcdefgh = ! command
:forget x y = ! command
:diff x x^3 = 3×x^2
\t:diff \t a1  2 ? = ! character 16
:diff x :pool = ! character 9
:diff = ! command
:diff x = ! command
:diff x  = ! command
:diff x+1 = ! command
:diff 1 x = ! command
:diff sqrt x = ! command
:diff abcdefgh x = ! command
:diffx x = ! command
:solve x=1;y = ! command
:solve ;  = ! command
:solve = ! command
:solve  = ! command
:solvex = ! command
:expand (x+1)^2 = 1+2×x+x^2
:expand = ! command
:expand(x) = ! command
:expandx = ! command
:pooled = ! command";
