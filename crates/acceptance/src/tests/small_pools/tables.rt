//! Lines, and the texts of their answers, which come from a model of its own.

/// Lines whose answers are reached by joining, cancelling and rationalising.
pub const REDUCED: &str = "\
1/3+1/6 = 1/2\n\
√(8)+√(18) = 5×√(2)\n\
1/(√(2)+√(3)) = -√(2)+√(3)\n\
x/x = 1\n\
0^0 = undef\n\
1/0 = undef\n\
√(-1) = undef\n\
x^2×x^-2 = 1\n\
√(0) = 0\n\
2^-3 = 1/8\n\
-2^2 = -4\n\
x+√(2)×x = (1+√(2))×x\n\
(-3+√(17))/4 = -3/4+√(17)/4\n\
(√(2)+√(3))^2 = 5+2×√(6)\n\
√(2)×√(3) = √(6)\n\
(x+1)-(x+1) = 0\n\
(x×y)^2/x = x×y^2\n\
√(x)×√(x) = x\n\
0.1+0.2 = 3/10\n\
x^(y+z)×x^(y-z) = x^(2×y)\n\
((x^a)^b)^c = ((x^a)^b)^c\n\
x/(y-y) = undef\n\
√(2)×x+x+a+2×b+3×c = a+2×b+3×c+(1+√(2))×x\n\
√(2)+√(3)+2×b+3×c+2×d = √(2)+√(3)+2×b+3×c+2×d\n\
(1+y)+x+y = 1+x+2×y\n\
y+x+y = x+2×y\n\
x+1-x = 1";

/// Lines whose answers are sums, fractions and powers with names.
pub const SHOWN: &str = "\
1 = 1\n\
7 = 7\n\
x = x\n\
-a-b = -a-b\n\
1/2x = 1/(2×x)\n\
√(1/2) = √(2)/2\n\
(x+√(2))^-1×(x+√(3))^-1 = 1/((√(2)+x)×(√(3)+x))\n\
2x(x+1)-2x^2 = 2×x×(1+x)-2×x^2\n\
2^(1/2) = √(2)\n\
√(1+√(2)) = √(1+√(2))\n\
1/(1+√(2)+√(3)) = 1/(1+√(2)+√(3))\n\
2×(x+y) = 2×x+2×y\n\
(2×x×y)^3 = 8×x^3×y^3\n\
a-(b-(c-d)) = a-b+c-d\n\
(x/y)/(z/w) = w×x/(y×z)\n\
√(x)/2 = √(x)/2\n\
(1+√(2))^5 = 41+29×√(2)\n\
-x/2 = -x/2\n\
(x/y)^-2 = y^2/x^2\n\
a+b+c+d+e+f+g+h = a+b+c+d+e+f+g+h";

/// Commands that place trees: derivatives, expansions and solutions.
pub const CALCULATED: &str = "\
:diff x x^2×y/(1+x) = (2×x×y×(1+x)-x^2×y)/(1+x)^2\n\
:diff x √(x^2+1) = x/√(1+x^2)\n\
:diff x (x^2+1)^-3 = -6×x/(1+x^2)^4\n\
:expand (x+y)^3 = 3×x×y^2+3×x^2×y+x^3+y^3\n\
:expand (x+1)×(x-y) = x-y-x×y+x^2\n\
:expand (a+b+c+d+e)×(f+g+h+i)-a×f = \
a×g+a×h+a×i+b×f+b×g+b×h+b×i+c×f+c×g+c×h+c×i+d×f+d×g+d×h+d×i+e×f+e×g+e×h+e×i\n\
:solve x+2y=1;y-z=2 = x=-3-2×z,y=2+z,z free";

/// Products whose factors are joined: bases that come twice and three times in scattered orders; joints that become Numbers,
/// products and other bases that are there already; exponents that cancel.
pub const JOINED: &str = "\
x×y×x = x^2×y\n\
x×x×x = x^3\n\
z×x×y×x×z×x = x^3×y×z^2\n\
b×a×c×a×b×a = a^3×b^2×c\n\
x^2×y×x^3 = x^5×y\n\
y×x×x^-2×x = y\n\
a×x^-2×b×x^2×c = a×b×c\n\
x^y×z×x = x^(1+y)×z\n\
x^y×a×x^z×b×x^y = a×b×x^(2×y+z)\n\
x^y×x^(-y)×y = y\n\
a×x^y×b×x^(2-y) = a×b×x^2\n\
x^y×y×x^(1-y) = x×y\n\
x^y×x×x^(-y)×y = x×y\n\
a×x^(y+1)×b×x^(-y) = a×b×x\n\
√(x)×√(x) = x\n\
√(x)×y×√(x) = x×y\n\
√(x)×√(x)×√(x) = x×√(x)\n\
√(x)×√(x)×√(x)×√(x) = x^2\n\
x×√(x)×y×√(x) = x^2×y\n\
√(y)×x×√(y)×y = x×y^2\n\
√(x)×√(y)×√(x)×√(y) = x×y\n\
√(x)×x×√(x)×x = x^3\n\
√(x)^3×y×√(x) = x^2×y\n\
√(x×y)×z×√(x×y) = x×y×z\n\
√(x×y)×x×√(x×y)×y = x^2×y^2\n\
√(x+1)×y×√(x+1) = y×(1+x)\n\
(x+1)×y×√(x+1)×√(x+1) = y×(1+x)^2\n\
(x+y)×(a+b)×(x+y)×(a+b) = (a+b)^2×(x+y)^2\n\
(x+y)^2×a×(x+y)^-1 = a×(x+y)\n\
(x+y)^z×a×(x+y)^(-z) = a\n\
(x+y)^z×a×(x+y)^(1-z) = a×(x+y)\n\
(a×b)^x×c×(a×b)^(1-x) = a×b×c\n\
(a×b)^x×a×(a×b)^(2-x) = a^3×b^2\n\
(a×b)^x×b×a×(a×b)^(-x) = a×b\n\
(2×a)^x×c×(2×a)^(1-x) = 2×a×c\n\
(√(2)×a)^x×a×(√(2)×a)^(2-x) = 2×a^3\n\
2^x×y×2^(1-x) = 2×y\n\
2^x×3×2^(3-x)×x = 24×x\n\
3^x×2^y×3^(1-x)×2^(2-y) = 12\n\
(1+√(2)+√(3))^-1×x×(1+√(2)+√(3))^-1 = x/(1+√(2)+√(3))^2\n\
(1+√(2)+√(3))^x×y×(1+√(2)+√(3))^(1-x) = (1+√(2)+√(3))×y\n\
2×x×3×y×x×5 = 30×x^2×y\n\
√(2)×x×√(3)×y×x = √(6)×x^2×y\n\
(1+√(2))×x×y×(1-√(2))×x = -x^2×y\n\
x^(1/3)×y×x^(1/3) = y×(x^(1/3))^2\n\
x^(1/3)×x×y×x = x^2×y×x^(1/3)\n\
x^(1/2)×y×x^(1/2) = x×y\n\
x^y×z×x^(1/2-y) = z×√(x)\n\
x^y^z×a×x^y^z = a×x^(2×y^z)\n\
(x^y)^2×z×x^(-2×y) = z\n\
0^x×y×0^(-x) = undef\n\
a/b/c×b×c = a\n\
x×y/x/y×x = x\n\
(x+y)×a/(x+y)×b/a = b\n\
-x×y×-x = x^2×y\n\
-(x×y)×z×-(y×x) = x^2×y^2×z\n\
2×(x+1)×y×3×(x+1)×y^-1 = 6×(1+x)^2\n\
0×x×y×x = 0\n\
x^(2^63)×y×x^(2^63) = x^18446744073709551616×y\n\
x^(y+√(2))×z×x^(-√(2)) = x^(√(2)+y)×z×x^-√(2)";

/// Lines with their rooms, which is how many bytes of pool suffice for them beside the first answer.
pub const ROOMS: &str = "\
7 = 1064 = 7\n\
1/3+1/6 = 7208 = 1/2\n\
1/(√(2)+√(3)) = 28712 = -√(2)+√(3)\n\
(√(2)+√(3))^4 = 28712 = 49+20×√(6)";
