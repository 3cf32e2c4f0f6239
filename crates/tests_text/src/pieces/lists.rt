//! The calls for modules. They were typed from an earlier version of the code, which checked the result of every
//! call on a printer immediately. A row is a line of the text; `Calls::shown` defines how a call is written. A
//! backslash at the end of a line continues the row.

/// The calls for the module, printed with places.
pub const FLAT: &str = "\
[0x0](|{K}module|{R} |$|m|{? dylink.0 0x13 11}
[0xa]{C}(;@|a| | | | | |;)|{R}  |(|{K}@|dylink.0|{R}
[0x13]{C}(;@|1|3| | | | |;)|{R}    |(|{K}mem-info|{R} |(|memory| |8| |3|)|)|
[0x19]{C}(;@|1|9| | | | |;)|{R}    |(|{K}needed|{R} |{L}\"|l|\"|{R})|
[] | | | | | | | | | | |  |)|
[0x21]{C}(;@|2|1| | | | |;)|{R}  |(|{K}type| |{R}{N}(;|0|;)|{R} |(|{K}func|{R} |(|{K}param|{R} |{T}i32|{R})| |(|{K}result|{R} |{T}i32|\
{R})|)|)|
[0x26]{C}(;@|2|6| | | | |;)|{R}  |(|{K}type| |{R}{N}(;|1|;)|{R} |(|{K}func|{R})|)|
[0x29]{C}(;@|2|9| | | | |;)|{R}  |(|{K}type| |{R}{N}(;|2|;)|{R} |(|{K}sub|{R} |(|{K}struct|{R} |(|field| |(|mut| |{T}i64|{R})|)| |(|\
field| |(|{K}ref|{R} |null| |{N}0|{R})|)|)|)|)|
[0x32]{C}(;@|3|2| | | | |;)|{R}  |(|{K}type| |{R}{N}(;|3|;)|{R} |(|{K}array|{R} |(|mut| |i8|)|)|)|
[0x38]{C}(;@|3|8| | | | |;)|{R}  |(|{K}import| |{R}{L}\"|m|\"|{R} |{L}\"|g|\"|{R} |(|{K}global| |{R}{N}(;|0|;)|{R} |(|{T}mut| |{R}{T}\
i32|{R})|)|)|
[0x47]{C}(;@|4|7| | | | |;)|{R}  |(|{K}table| |{R}{N}(;|0|;)|{R} |{L}1|{R} |{T}funcref|{R})|
[0x4d]{C}(;@|4|d| | | | |;)|{R}  |(|{K}memory| |{R}{N}(;|0|;)|{R} |{L}1| |2||{R})|
[0x53]{C}(;@|5|3| | | | |;)|{R}  |(|{K}global| |{R}{N}$|\"|a| |b|\"| |(;|1|;)|{R} |{T}f64|{R} |f64.const| |{L}0x1|.|8|p+|0|{R})|
[0x62]{C}(;@|6|2| | | | |;)|{R}  |(|{K}export| |{R}{L}\"|\\u{|e|9|}|\"|{R} |(|{K}func| |{R}{N}$|f|{R})|)|
[0x69]{C}(;@|6|9| | | | |;)|{R}  |(|{K}start| |{R}{N}$|\"|#|f|u|n|c|1| |f|\"|{R})|
[0x6d]{C}(;@|6|d| | | | |;)|{R}  |(|{K}elem| |{R}{N}(;|0|;)|{R} |(|{K}|{R}i32.const|{L} |0|{R})| |func| |{N}$|f|{R} |{N}$|\"|#|f|u|n|c|\
1| |f|\"|{R})|{? metadata.code.branch_hint 0x90 11}
[0xa1]{C}(;@|a|1| | | | |;)|{R}  |(|{K}func| |{R}{N}$|f| |(;|0|;)|{R} |(|{K}type| |{R}{N}0|{R})| |(|{K}param|{R} |$|x| |{T}i32|{R})| |\
(|{K}result|{R} |{T}i32|{R})|
[0xa2]{C}(;@|a|2| | | | |;)|{R}    |(|{K}local|{R} |{T}v128|{R})|
[0xa4]{C}(;@|a|4| | | | |;)|{R}    |block| |$|\"|\\u{|e|9|}|\"|
[0xa6]{C}(;@|a|6| | | | |;)|{R}      |f32.const| |{L}0x1|.|9|2|1|f|b|6|p+|1|{R}
[0xab]{C}(;@|a|b| | | | |;)|{R}      |drop|
[0xac]{C}(;@|a|c| | | | |;)|{R}      |f32.const| |-|{L}inf| |{C}(;=-inf;)|{R}
[0xb1]{C}(;@|b|1| | | | |;)|{R}      |drop|
[0xb2]{C}(;@|b|2| | | | |;)|{R}      |f32.const| |{L}nan| |{C}(;=NaN;)|{R}
[0xb7]{C}(;@|b|7| | | | |;)|{R}      |drop|
[0xb8]{C}(;@|b|8| | | | |;)|{R}      |f32.const| |-|{L}nan:0x|1| |{C}(;=NaN;)|{R}
[0xbd]{C}(;@|b|d| | | | |;)|{R}      |drop|
[0xbe]{C}(;@|b|e| | | | |;)|{R}      |f32.const| |{L}0x1.|p-|149|{R}
[0xc3]{C}(;@|c|3| | | | |;)|{R}      |drop|
[0xc4]{C}(;@|c|4| | | | |;)|{R}      |f32.const| |-|{L}0x0p+0|{R}
[0xc9]{C}(;@|c|9| | | | |;)|{R}      |drop|
[0xca]{C}(;@|c|a| | | | |;)|{R}      |f32.const| |{L}0x1|.|f|f|f|f|f|e|p+|127|{R}
[0xcf]{C}(;@|c|f| | | | |;)|{R}      |drop|
[0xd0]{C}(;@|d|0| | | | |;)|{R}      |f64.const| |{L}0x1|.|9|2|1|f|b|5|4|4|4|2|d|1|8|p+|1|{R}
[0xd9]{C}(;@|d|9| | | | |;)|{R}      |drop|
[0xda]{C}(;@|d|a| | | | |;)|{R}      |f64.const| |{L}inf| |{C}(;=inf;)|{R}
[0xe3]{C}(;@|e|3| | | | |;)|{R}      |drop|
[0xe4]{C}(;@|e|4| | | | |;)|{R}      |f64.const| |-|{L}nan| |{C}(;=NaN;)|{R}
[0xed]{C}(;@|e|d| | | | |;)|{R}      |drop|
[0xee]{C}(;@|e|e| | | | |;)|{R}      |f64.const| |{L}nan:0x|a|b|c|d| |{C}(;=NaN;)|{R}
[0xf7]{C}(;@|f|7| | | | |;)|{R}      |drop|
[0xf8]{C}(;@|f|8| | | | |;)|{R}      |f64.const| |-|{L}0x1.|p-|1074|{R}
[0x101]{C}(;@|1|0|1| | | |;)|{R}      |drop|
[0x102]{C}(;@|1|0|2| | | |;)|{R}      |f64.const| |{L}0x1|p+|1023|{R}
[0x10b]{C}(;@|1|0|b| | | |;)|{R}      |drop|
[0x10c]{C}(;@|1|0|c| | | |;)|{R}      |f64.const| |{L}0x0p+0|{R}
[0x115]{C}(;@|1|1|5| | | |;)|{R}      |drop|
[0x116]{C}(;@|1|1|6| | | |;)|{R}      |v128.const|{T} |i32x4|{R}{L} 0x|0|0|0|0|0|0|0|0| 0x|1|2|3|4|5|6|7|8| 0x|f|f|f|f|f|f|f|f| 0x|0|0|\
0|0|0|0|0|1|{R}
[0x128]{C}(;@|1|2|8| | | |;)|{R}      |local.tee| |{N}1|{R}
[0x12a]{C}(;@|1|2|a| | | |;)|{R}      |local.get| |{N}1|{R}
[0x12c]{C}(;@|1|2|c| | | |;)|{R}      |i8x16.shuffle| |0| |1| |2| |3| |4| |5| |6| |7| |8| |9| |10| |31| |30| |29| |28| |16|
[0x13e]{C}(;@|1|3|e| | | |;)|{R}      |local.set| |{N}1|{R}
[0x140]{C}(;@|1|4|0| | | |;)|{R}      |local.get| |{N}$|x|{R}
[0x93]{C}(;@|9|3| | | | |;)|{R}      |{C}(@metadata.code.branch_hint \"\\01\")|{R}
[0x142]{C}(;@|1|4|2| | | |;)|{R}      |br_if| |$|\"|\\u{|e|9|}|\"|
[0x144]{C}(;@|1|4|4| | | |;)|{R}    |end|
[0x145]{C}(;@|1|4|5| | | |;)|{R}    |local.get| |{N}$|x|{R}
[0x97]{C}(;@|9|7| | | | |;)|{R}    |{C}(@metadata.code.branch_hint \"\\00\")|{R}
[0x147]{C}(;@|1|4|7| | | |;)|{R}    |if| |(|{K}result| |{R}{T}i32|{R})| |{C};; label = @|1||{R}
[0x149]{C}(;@|1|4|9| | | |;)|{R}      |local.get| |{N}$|x|{R}
[0x14b]{C}(;@|1|4|b| | | |;)|{R}      |i32.load| |offset=|8| |align=|2|
[0x14e]{C}(;@|1|4|e| | | |;)|{R}    |else|
[0x14f]{C}(;@|1|4|f| | | |;)|{R}      |i32.const|{L} |-1|{R}
[0x151]{C}(;@|1|5|1| | | |;)|{R}    |end|
[0x152]{C}(;@|1|5|2| | | |;)|{R}  |)|
[0x154]{C}(;@|1|5|4| | | |;)|{R}  |(|{K}func| |{R}{N}$|\"|#|f|u|n|c|1| |f|\"| |(|{K}@name \"|{R}f|\")| |(;|1|;)|{R} |(|{K}type| |{R}{N}\
1|{R})|
[0x155]{C}(;@|1|5|5| | | |;)|{R}    |loop| |{C};; label = @|1||{R}
[0x157]{C}(;@|1|5|7| | | |;)|{R}      |block| |{C};; label = @|2||{R}
[0x159]{C}(;@|1|5|9| | | |;)|{R}      |end|
[0x15a]{C}(;@|1|5|a| | | |;)|{R}      |i32.const|{L} |0|{R}
[0x15c]{C}(;@|1|5|c| | | |;)|{R}      |br_table| |{N}0|{R}{C} (;@|1|;)|{R} |{N}1|{R}
[0x160]{C}(;@|1|6|0| | | |;)|{R}    |end|
[0x161]{C}(;@|1|6|1| | | |;)|{R}  |)|
[0x165]{C}(;@|1|6|5| | | |;)|{R}  |(|{K}data| |{R}{N}(;|0|;)|{R} |(|{K}|{R}i32.const|{L} |1|{R})| |{L}\"|a|\\|0|0|\"|{R})|{? c 0x170 2}
[0x16e]{C}(;@|1|6|e| | | |;)|{R}  |(|{K}@|custom| |{R}{L}\"|c|\"|{R} |(|after| |data|)| |{L}\"|\\|2|2|\\|f|f|\"|{R})|\
{? producers 0x17e 16}
[0x174]{C}(;@|1|7|4| | | |;)|{R}  |(|{K}@|producers|{R}
[0x189]{C}(;@|1|8|9| | | |;)|{R}    |(|{K}language|{R} |{L}\"|C|\"|{R} |{L}\"|1|1|\"|{R})|
[] | | | | | | | | | | |  |)|{? name 0x195 38}
[0x1bb]{C}(;@|1|b|b| | | |;)|{R}|)|
";

/// The calls for the module, folded and printed with places.
pub const FOLDED: &str = "\
[0x0](|{K}module|{R} |$|m|{? dylink.0 0x13 11}
[0xa]{C}(;@|a| | | | | |;)|{R}  |(|{K}@|dylink.0|{R}
[0x13]{C}(;@|1|3| | | | |;)|{R}    |(|{K}mem-info|{R} |(|memory| |8| |3|)|)|
[0x19]{C}(;@|1|9| | | | |;)|{R}    |(|{K}needed|{R} |{L}\"|l|\"|{R})|
[] | | | | | | | | | | |  |)|
[0x21]{C}(;@|2|1| | | | |;)|{R}  |(|{K}type| |{R}{N}(;|0|;)|{R} |(|{K}func|{R} |(|{K}param|{R} |{T}i32|{R})| |(|{K}result|{R} |{T}i32|\
{R})|)|)|
[0x26]{C}(;@|2|6| | | | |;)|{R}  |(|{K}type| |{R}{N}(;|1|;)|{R} |(|{K}func|{R})|)|
[0x29]{C}(;@|2|9| | | | |;)|{R}  |(|{K}type| |{R}{N}(;|2|;)|{R} |(|{K}sub|{R} |(|{K}struct|{R} |(|field| |(|mut| |{T}i64|{R})|)| |(|\
field| |(|{K}ref|{R} |null| |{N}0|{R})|)|)|)|)|
[0x32]{C}(;@|3|2| | | | |;)|{R}  |(|{K}type| |{R}{N}(;|3|;)|{R} |(|{K}array|{R} |(|mut| |i8|)|)|)|
[0x38]{C}(;@|3|8| | | | |;)|{R}  |(|{K}import| |{R}{L}\"|m|\"|{R} |{L}\"|g|\"|{R} |(|{K}global| |{R}{N}(;|0|;)|{R} |(|{T}mut| |{R}{T}\
i32|{R})|)|)|
[0x47]{C}(;@|4|7| | | | |;)|{R}  |(|{K}table| |{R}{N}(;|0|;)|{R} |{L}1|{R} |{T}funcref|{R})|
[0x4d]{C}(;@|4|d| | | | |;)|{R}  |(|{K}memory| |{R}{N}(;|0|;)|{R} |{L}1| |2||{R})|
[0x53]{C}(;@|5|3| | | | |;)|{R}  |(|{K}global| |{R}{N}$|\"|a| |b|\"| |(;|1|;)|{R} |{T}f64|{R} |(|f64.const 0x1.8p+0|)|)|
[0x62]{C}(;@|6|2| | | | |;)|{R}  |(|{K}export| |{R}{L}\"|\\u{|e|9|}|\"|{R} |(|{K}func| |{R}{N}$|f|{R})|)|
[0x69]{C}(;@|6|9| | | | |;)|{R}  |(|{K}start| |{R}{N}$|\"|#|f|u|n|c|1| |f|\"|{R})|
[0x6d]{C}(;@|6|d| | | | |;)|{R}  |(|{K}elem| |{R}{N}(;|0|;)|{R} |(|{K}|{R}i32.const|{L} |0|{R})| |func| |{N}$|f|{R} |{N}$|\"|#|f|u|n|c|\
1| |f|\"|{R})|{? metadata.code.branch_hint 0x90 11}
[0xa1]{C}(;@|a|1| | | | |;)|{R}  |(|{K}func| |{R}{N}$|f| |(;|0|;)|{R} |(|{K}type| |{R}{N}0|{R})| |(|{K}param|{R} |$|x| |{T}i32|{R})| |\
(|{K}result|{R} |{T}i32|{R})|
[0xa2]{C}(;@|a|2| | | | |;)|{R}    |(|{K}local|{R} |{T}v128|{R})|
[0xa4]{C}(;@|a|4| | | | |;)|{R}    |(|block $\"\\u{e9}\"|
[0xab]{C}(;@|a|b| | | | |;)|{R}      |(|drop|
[0xa6]{C}(;@|a|6| | | | |;)|{R}        |(|f32.const 0x1.921fb6p+1|)|)|
[0xb1]{C}(;@|b|1| | | | |;)|{R}      |(|drop|
[0xac]{C}(;@|a|c| | | | |;)|{R}        |(|f32.const -inf (;=-inf;)|)|)|
[0xb7]{C}(;@|b|7| | | | |;)|{R}      |(|drop|
[0xb2]{C}(;@|b|2| | | | |;)|{R}        |(|f32.const nan (;=NaN;)|)|)|
[0xbd]{C}(;@|b|d| | | | |;)|{R}      |(|drop|
[0xb8]{C}(;@|b|8| | | | |;)|{R}        |(|f32.const -nan:0x1 (;=NaN;)|)|)|
[0xc3]{C}(;@|c|3| | | | |;)|{R}      |(|drop|
[0xbe]{C}(;@|b|e| | | | |;)|{R}        |(|f32.const 0x1.p-149|)|)|
[0xc9]{C}(;@|c|9| | | | |;)|{R}      |(|drop|
[0xc4]{C}(;@|c|4| | | | |;)|{R}        |(|f32.const -0x0p+0|)|)|
[0xcf]{C}(;@|c|f| | | | |;)|{R}      |(|drop|
[0xca]{C}(;@|c|a| | | | |;)|{R}        |(|f32.const 0x1.fffffep+127|)|)|
[0xd9]{C}(;@|d|9| | | | |;)|{R}      |(|drop|
[0xd0]{C}(;@|d|0| | | | |;)|{R}        |(|f64.const 0x1.921fb54442d18p+1|)|)|
[0xe3]{C}(;@|e|3| | | | |;)|{R}      |(|drop|
[0xda]{C}(;@|d|a| | | | |;)|{R}        |(|f64.const inf (;=inf;)|)|)|
[0xed]{C}(;@|e|d| | | | |;)|{R}      |(|drop|
[0xe4]{C}(;@|e|4| | | | |;)|{R}        |(|f64.const -nan (;=NaN;)|)|)|
[0xf7]{C}(;@|f|7| | | | |;)|{R}      |(|drop|
[0xee]{C}(;@|e|e| | | | |;)|{R}        |(|f64.const nan:0xabcd (;=NaN;)|)|)|
[0x101]{C}(;@|1|0|1| | | |;)|{R}      |(|drop|
[0xf8]{C}(;@|f|8| | | | |;)|{R}        |(|f64.const -0x1.p-1074|)|)|
[0x10b]{C}(;@|1|0|b| | | |;)|{R}      |(|drop|
[0x102]{C}(;@|1|0|2| | | |;)|{R}        |(|f64.const 0x1p+1023|)|)|
[0x115]{C}(;@|1|1|5| | | |;)|{R}      |(|drop|
[0x10c]{C}(;@|1|0|c| | | |;)|{R}        |(|f64.const 0x0p+0|)|)|
[0x13e]{C}(;@|1|3|e| | | |;)|{R}      |(|local.set 1|
[0x12c]{C}(;@|1|2|c| | | |;)|{R}        |(|i8x16.shuffle 0 1 2 3 4 5 6 7 8 9 10 31 30 29 28 16|
[0x128]{C}(;@|1|2|8| | | |;)|{R}          |(|local.tee 1|
[0x116]{C}(;@|1|1|6| | | |;)|{R}            |(|v128.const i32x4 0x00000000 0x12345678 0xffffffff 0x00000001|)|)|
[0x12a]{C}(;@|1|2|a| | | |;)|{R}          |(|local.get 1|)|)|)|
[0x142]{C}(;@|1|4|2| | | |;)|{R}      |(@metadata.code.branch_hint \"\\01\")|
[0x142]{C}(;@|1|4|2| | | |;)|{R}      |(|br_if $\"\\u{e9}\"|
[0x140]{C}(;@|1|4|0| | | |;)|{R}        |(|local.get $x|)|)|)|
[0x147]{C}(;@|1|4|7| | | |;)|{R}    |(@metadata.code.branch_hint \"\\00\")|
[0x147]{C}(;@|1|4|7| | | |;)|{R}    |(|if (result i32) ;; label = @1|
[0x145]{C}(;@|1|4|5| | | |;)|{R}      |(|local.get $x|)|
[0x147]{C}(;@|1|4|7| | | |;)|{R}      |(|then|
[0x14b]{C}(;@|1|4|b| | | |;)|{R}        |(|i32.load offset=8 align=2|
[0x149]{C}(;@|1|4|9| | | |;)|{R}          |(|local.get $x|)|)|)|
[0x14e]{C}(;@|1|4|e| | | |;)|{R}      |(|else|
[0x14f]{C}(;@|1|4|f| | | |;)|{R}        |(|i32.const -1|)|)|)|
[0x152]{C}(;@|1|5|2| | | |;)|{R}  |)|
[0x154]{C}(;@|1|5|4| | | |;)|{R}  |(|{K}func| |{R}{N}$|\"|#|f|u|n|c|1| |f|\"| |(|{K}@name \"|{R}f|\")| |(;|1|;)|{R} |(|{K}type| |{R}{N}\
1|{R})|
[0x155]{C}(;@|1|5|5| | | |;)|{R}    |(|loop ;; label = @1|
[0x157]{C}(;@|1|5|7| | | |;)|{R}      |(|block ;; label = @2|
[0x157]{C}(;@|1|5|7| | | |;)|{R}      |)|
[0x15c]{C}(;@|1|5|c| | | |;)|{R}      |(|br_table 0 (;@1;) 1|
[0x15a]{C}(;@|1|5|a| | | |;)|{R}        |(|i32.const 0|)|)|)|
[0x161]{C}(;@|1|6|1| | | |;)|{R}  |)|
[0x165]{C}(;@|1|6|5| | | |;)|{R}  |(|{K}data| |{R}{N}(;|0|;)|{R} |(|{K}|{R}i32.const|{L} |1|{R})| |{L}\"|a|\\|0|0|\"|{R})|{? c 0x170 2}
[0x16e]{C}(;@|1|6|e| | | |;)|{R}  |(|{K}@|custom| |{R}{L}\"|c|\"|{R} |(|after| |data|)| |{L}\"|\\|2|2|\\|f|f|\"|{R})|\
{? producers 0x17e 16}
[0x174]{C}(;@|1|7|4| | | |;)|{R}  |(|{K}@|producers|{R}
[0x189]{C}(;@|1|8|9| | | |;)|{R}    |(|{K}language|{R} |{L}\"|C|\"|{R} |{L}\"|1|1|\"|{R})|
[] | | | | | | | | | | |  |)|{? name 0x195 38}
[0x1bb]{C}(;@|1|b|b| | | |;)|{R}|)|
";

/// The calls for the module, printed with synthesized identifiers.
pub const NAMED: &str = "\
[0x0](|{K}module|{R} |$|m|{? dylink.0 0x13 11}
[0xa]  |(|{K}@|dylink.0|{R}
[0x13]    |(|{K}mem-info|{R} |(|memory| |8| |3|)|)|
[0x19]    |(|{K}needed|{R} |{L}\"|l|\"|{R})|
[]  |)|
[0x21]  |(|{K}type| |{R}{N}$#|type|0| |(;|0|;)|{R} |(|{K}func|{R} |(|{K}param|{R} |{T}i32|{R})| |(|{K}result|{R} |{T}i32|{R})|)|)|
[0x26]  |(|{K}type| |{R}{N}$#|type|1| |(;|1|;)|{R} |(|{K}func|{R})|)|
[0x29]  |(|{K}type| |{R}{N}$#|type|2| |(;|2|;)|{R} |(|{K}sub|{R} |(|{K}struct|{R} |(|field| |$#|field|0| |(|mut| |{T}i64|{R})|)| |(|\
field| |$#|field|1| |(|{K}ref|{R} |null| |{N}$#|type|0|{R})|)|)|)|)|
[0x32]  |(|{K}type| |{R}{N}$#|type|3| |(;|3|;)|{R} |(|{K}array|{R} |(|mut| |i8|)|)|)|
[0x38]  |(|{K}import| |{R}{L}\"|m|\"|{R} |{L}\"|g|\"|{R} |(|{K}global| |{R}{N}$#|global|0| |(;|0|;)|{R} |(|{T}mut| |{R}{T}i32|{R})|)|)|
[0x47]  |(|{K}table| |{R}{N}$#|table|0| |(;|0|;)|{R} |{L}1|{R} |{T}funcref|{R})|
[0x4d]  |(|{K}memory| |{R}{N}$#|memory|0| |(;|0|;)|{R} |{L}1| |2||{R})|
[0x53]  |(|{K}global| |{R}{N}$|\"|a| |b|\"| |(;|1|;)|{R} |{T}f64|{R} |f64.const| |{L}0x1|.|8|p+|0|{R})|
[0x62]  |(|{K}export| |{R}{L}\"|\\u{|e|9|}|\"|{R} |(|{K}func| |{R}{N}$|f|{R})|)|
[0x69]  |(|{K}start| |{R}{N}$|\"|#|f|u|n|c|1| |f|\"|{R})|
[0x6d]  |(|{K}elem| |{R}{N}$#|elem|0| |(;|0|;)|{R} |(|{K}|{R}i32.const|{L} |0|{R})| |func| |{N}$|f|{R} |{N}$|\"|#|f|u|n|c|1| |f|\"|{R}\
)|{? metadata.code.branch_hint 0x90 11}
[0xa1]  |(|{K}func| |{R}{N}$|f| |(;|0|;)|{R} |(|{K}type| |{R}{N}$#|type|0|{R})| |(|{K}param|{R} |$|x| |{T}i32|{R})| |(|{K}result|{R} |\
{T}i32|{R})|
[0xa2]    |(|{K}local|{R} |$#|local|1| |{T}v128|{R})|
[0xa4]    |block| |$|\"|\\u{|e|9|}|\"|
[0xa6]      |f32.const| |{L}0x1|.|9|2|1|f|b|6|p+|1|{R}
[0xab]      |drop|
[0xac]      |f32.const| |-|{L}inf| |{C}(;=-inf;)|{R}
[0xb1]      |drop|
[0xb2]      |f32.const| |{L}nan| |{C}(;=NaN;)|{R}
[0xb7]      |drop|
[0xb8]      |f32.const| |-|{L}nan:0x|1| |{C}(;=NaN;)|{R}
[0xbd]      |drop|
[0xbe]      |f32.const| |{L}0x1.|p-|149|{R}
[0xc3]      |drop|
[0xc4]      |f32.const| |-|{L}0x0p+0|{R}
[0xc9]      |drop|
[0xca]      |f32.const| |{L}0x1|.|f|f|f|f|f|e|p+|127|{R}
[0xcf]      |drop|
[0xd0]      |f64.const| |{L}0x1|.|9|2|1|f|b|5|4|4|4|2|d|1|8|p+|1|{R}
[0xd9]      |drop|
[0xda]      |f64.const| |{L}inf| |{C}(;=inf;)|{R}
[0xe3]      |drop|
[0xe4]      |f64.const| |-|{L}nan| |{C}(;=NaN;)|{R}
[0xed]      |drop|
[0xee]      |f64.const| |{L}nan:0x|a|b|c|d| |{C}(;=NaN;)|{R}
[0xf7]      |drop|
[0xf8]      |f64.const| |-|{L}0x1.|p-|1074|{R}
[0x101]      |drop|
[0x102]      |f64.const| |{L}0x1|p+|1023|{R}
[0x10b]      |drop|
[0x10c]      |f64.const| |{L}0x0p+0|{R}
[0x115]      |drop|
[0x116]      |v128.const|{T} |i32x4|{R}{L} 0x|0|0|0|0|0|0|0|0| 0x|1|2|3|4|5|6|7|8| 0x|f|f|f|f|f|f|f|f| 0x|0|0|0|0|0|0|0|1|{R}
[0x128]      |local.tee| |{N}$#|local|1|{R}
[0x12a]      |local.get| |{N}$#|local|1|{R}
[0x12c]      |i8x16.shuffle| |0| |1| |2| |3| |4| |5| |6| |7| |8| |9| |10| |31| |30| |29| |28| |16|
[0x13e]      |local.set| |{N}$#|local|1|{R}
[0x140]      |local.get| |{N}$|x|{R}
[0x93]      |{C}(@metadata.code.branch_hint \"\\01\")|{R}
[0x142]      |br_if| |$|\"|\\u{|e|9|}|\"|
[0x144]    |end|
[0x145]    |local.get| |{N}$|x|{R}
[0x97]    |{C}(@metadata.code.branch_hint \"\\00\")|{R}
[0x147]    |if| |$#|label|0| |(|{K}result| |{R}{T}i32|{R})|
[0x149]      |local.get| |{N}$|x|{R}
[0x14b]      |i32.load| |offset=|8| |align=|2|
[0x14e]    |else|
[0x14f]      |i32.const|{L} |-1|{R}
[0x151]    |end|
[0x152]  |)|
[0x154]  |(|{K}func| |{R}{N}$|\"|#|f|u|n|c|1| |f|\"| |(|{K}@name \"|{R}f|\")| |(;|1|;)|{R} |(|{K}type| |{R}{N}$#|type|1|{R})|
[0x155]    |loop| |$#|label|0|
[0x157]      |block| |$#|label|1|
[0x159]      |end|
[0x15a]      |i32.const|{L} |0|{R}
[0x15c]      |br_table| |{N}$#|label|0|{R} |{N}1|{R}
[0x160]    |end|
[0x161]  |)|
[0x165]  |(|{K}data| |{R}{N}$#|data|0| |(;|0|;)|{R} |(|{K}|{R}i32.const|{L} |1|{R})| |{L}\"|a|\\|0|0|\"|{R})|{? c 0x170 2}
[0x16e]  |(|{K}@|custom| |{R}{L}\"|c|\"|{R} |(|after| |data|)| |{L}\"|\\|2|2|\\|f|f|\"|{R})|{? producers 0x17e 16}
[0x174]  |(|{K}@|producers|{R}
[0x189]    |(|{K}language|{R} |{L}\"|C|\"|{R} |{L}\"|1|1|\"|{R})|
[]  |)|{? name 0x195 38}
[0x1bb]|)|
";

/// The calls for the module, folded and printed with synthesized identifiers.
pub const NAMED_FOLDED: &str = "\
[0x0](|{K}module|{R} |$|m|{? dylink.0 0x13 11}
[0xa]  |(|{K}@|dylink.0|{R}
[0x13]    |(|{K}mem-info|{R} |(|memory| |8| |3|)|)|
[0x19]    |(|{K}needed|{R} |{L}\"|l|\"|{R})|
[]  |)|
[0x21]  |(|{K}type| |{R}{N}$#|type|0| |(;|0|;)|{R} |(|{K}func|{R} |(|{K}param|{R} |{T}i32|{R})| |(|{K}result|{R} |{T}i32|{R})|)|)|
[0x26]  |(|{K}type| |{R}{N}$#|type|1| |(;|1|;)|{R} |(|{K}func|{R})|)|
[0x29]  |(|{K}type| |{R}{N}$#|type|2| |(;|2|;)|{R} |(|{K}sub|{R} |(|{K}struct|{R} |(|field| |$#|field|0| |(|mut| |{T}i64|{R})|)| |(|\
field| |$#|field|1| |(|{K}ref|{R} |null| |{N}$#|type|0|{R})|)|)|)|)|
[0x32]  |(|{K}type| |{R}{N}$#|type|3| |(;|3|;)|{R} |(|{K}array|{R} |(|mut| |i8|)|)|)|
[0x38]  |(|{K}import| |{R}{L}\"|m|\"|{R} |{L}\"|g|\"|{R} |(|{K}global| |{R}{N}$#|global|0| |(;|0|;)|{R} |(|{T}mut| |{R}{T}i32|{R})|)|)|
[0x47]  |(|{K}table| |{R}{N}$#|table|0| |(;|0|;)|{R} |{L}1|{R} |{T}funcref|{R})|
[0x4d]  |(|{K}memory| |{R}{N}$#|memory|0| |(;|0|;)|{R} |{L}1| |2||{R})|
[0x53]  |(|{K}global| |{R}{N}$|\"|a| |b|\"| |(;|1|;)|{R} |{T}f64|{R} |(|f64.const 0x1.8p+0|)|)|
[0x62]  |(|{K}export| |{R}{L}\"|\\u{|e|9|}|\"|{R} |(|{K}func| |{R}{N}$|f|{R})|)|
[0x69]  |(|{K}start| |{R}{N}$|\"|#|f|u|n|c|1| |f|\"|{R})|
[0x6d]  |(|{K}elem| |{R}{N}$#|elem|0| |(;|0|;)|{R} |(|{K}|{R}i32.const|{L} |0|{R})| |func| |{N}$|f|{R} |{N}$|\"|#|f|u|n|c|1| |f|\"|{R}\
)|{? metadata.code.branch_hint 0x90 11}
[0xa1]  |(|{K}func| |{R}{N}$|f| |(;|0|;)|{R} |(|{K}type| |{R}{N}$#|type|0|{R})| |(|{K}param|{R} |$|x| |{T}i32|{R})| |(|{K}result|{R} |\
{T}i32|{R})|
[0xa2]    |(|{K}local|{R} |$#|local|1| |{T}v128|{R})|
[0xa4]    |(|block $\"\\u{e9}\"|
[0xab]      |(|drop|
[0xa6]        |(|f32.const 0x1.921fb6p+1|)|)|
[0xb1]      |(|drop|
[0xac]        |(|f32.const -inf (;=-inf;)|)|)|
[0xb7]      |(|drop|
[0xb2]        |(|f32.const nan (;=NaN;)|)|)|
[0xbd]      |(|drop|
[0xb8]        |(|f32.const -nan:0x1 (;=NaN;)|)|)|
[0xc3]      |(|drop|
[0xbe]        |(|f32.const 0x1.p-149|)|)|
[0xc9]      |(|drop|
[0xc4]        |(|f32.const -0x0p+0|)|)|
[0xcf]      |(|drop|
[0xca]        |(|f32.const 0x1.fffffep+127|)|)|
[0xd9]      |(|drop|
[0xd0]        |(|f64.const 0x1.921fb54442d18p+1|)|)|
[0xe3]      |(|drop|
[0xda]        |(|f64.const inf (;=inf;)|)|)|
[0xed]      |(|drop|
[0xe4]        |(|f64.const -nan (;=NaN;)|)|)|
[0xf7]      |(|drop|
[0xee]        |(|f64.const nan:0xabcd (;=NaN;)|)|)|
[0x101]      |(|drop|
[0xf8]        |(|f64.const -0x1.p-1074|)|)|
[0x10b]      |(|drop|
[0x102]        |(|f64.const 0x1p+1023|)|)|
[0x115]      |(|drop|
[0x10c]        |(|f64.const 0x0p+0|)|)|
[0x13e]      |(|local.set $#local1|
[0x12c]        |(|i8x16.shuffle 0 1 2 3 4 5 6 7 8 9 10 31 30 29 28 16|
[0x128]          |(|local.tee $#local1|
[0x116]            |(|v128.const i32x4 0x00000000 0x12345678 0xffffffff 0x00000001|)|)|
[0x12a]          |(|local.get $#local1|)|)|)|
[0x142]      |(@metadata.code.branch_hint \"\\01\")|
[0x142]      |(|br_if $\"\\u{e9}\"|
[0x140]        |(|local.get $x|)|)|)|
[0x147]    |(@metadata.code.branch_hint \"\\00\")|
[0x147]    |(|if $#label0 (result i32)|
[0x145]      |(|local.get $x|)|
[0x147]      |(|then|
[0x14b]        |(|i32.load offset=8 align=2|
[0x149]          |(|local.get $x|)|)|)|
[0x14e]      |(|else|
[0x14f]        |(|i32.const -1|)|)|)|
[0x152]  |)|
[0x154]  |(|{K}func| |{R}{N}$|\"|#|f|u|n|c|1| |f|\"| |(|{K}@name \"|{R}f|\")| |(;|1|;)|{R} |(|{K}type| |{R}{N}$#|type|1|{R})|
[0x155]    |(|loop $#label0|
[0x157]      |(|block $#label1|)|
[0x15c]      |(|br_table $#label0 1|
[0x15a]        |(|i32.const 0|)|)|)|
[0x161]  |)|
[0x165]  |(|{K}data| |{R}{N}$#|data|0| |(;|0|;)|{R} |(|{K}|{R}i32.const|{L} |1|{R})| |{L}\"|a|\\|0|0|\"|{R})|{? c 0x170 2}
[0x16e]  |(|{K}@|custom| |{R}{L}\"|c|\"|{R} |(|after| |data|)| |{L}\"|\\|2|2|\\|f|f|\"|{R})|{? producers 0x17e 16}
[0x174]  |(|{K}@|producers|{R}
[0x189]    |(|{K}language|{R} |{L}\"|C|\"|{R} |{L}\"|1|1|\"|{R})|
[]  |)|{? name 0x195 38}
[0x1bb]|)|
";

/// The calls for `IDENTITY` with a tab as indent text, which is written once for each level.
pub const TABS: &str = "\
[0x0](|{K}module|{R}
[0xb]\t|(|{K}type| |{R}{N}(;|0|;)|{R} |(|{K}func|{R} |(|{K}param|{R} |{T}i32|{R})| |(|{K}result|{R} |{T}i32|{R})|)|)|
[0x17]\t|(|{K}export| |{R}{L}\"|f|\"|{R} |(|{K}func| |{R}{N}0|{R})|)|
[0x1f]\t|(|{K}func| |{R}{N}(;|0|;)|{R} |(|{K}type| |{R}{N}0|{R})| |(|{K}param|{R} |{T}i32|{R})| |(|{K}result|{R} |{T}i32|{R})|
[0x20]\t|\t|local.get| |{N}0|{R}
[0x22]\t|)|
[0x23])|
";
