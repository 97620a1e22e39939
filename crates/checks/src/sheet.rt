// The plain code sheet as a table, as the fitters' manual prints it: an entry for each of the 256 step codes, which gives the kind of step
// that the code stands for and the cell that it names. Ranges say what the codes mean in the rules, and the table is shown to be equal.
ghost use Rattle.rules.specs.steps.Codes.{plain_sheet};
ghost use Rattle.checks.specs.Promises.{TablePromise};

use crate::CODES;

// Of a code that stands for no step. An entry is 32 times the number of a kind, and the cell; a code that names no cell has cell 0.
pub const UNKNOWN: u8 = 0;

// Of a begin.
const BEGIN: u8 = 32;

// Of a try to commit.
const TRY: u8 = 64;

// Of a give up.
const GIVE_UP: u8 = 96;

// Of a read of cell 0, which the cell is added to.
const READ: u8 = 128;

// Of a write of cell 0, which the cell is added to.
const WRITE: u8 = 160;

// The entries, each beside its code.
const SHEET: [u8; CODES] = [
    BEGIN, //   0
    TRY, //   1
    GIVE_UP, //   2
    UNKNOWN, //   3
    UNKNOWN, //   4
    UNKNOWN, //   5
    UNKNOWN, //   6
    UNKNOWN, //   7
    UNKNOWN, //   8
    UNKNOWN, //   9
    UNKNOWN, //  10
    UNKNOWN, //  11
    UNKNOWN, //  12
    UNKNOWN, //  13
    UNKNOWN, //  14
    UNKNOWN, //  15
    UNKNOWN, //  16
    UNKNOWN, //  17
    UNKNOWN, //  18
    UNKNOWN, //  19
    UNKNOWN, //  20
    UNKNOWN, //  21
    UNKNOWN, //  22
    UNKNOWN, //  23
    UNKNOWN, //  24
    UNKNOWN, //  25
    UNKNOWN, //  26
    UNKNOWN, //  27
    UNKNOWN, //  28
    UNKNOWN, //  29
    UNKNOWN, //  30
    UNKNOWN, //  31
    READ + 0, //  32
    READ + 1, //  33
    READ + 2, //  34
    READ + 3, //  35
    READ + 4, //  36
    READ + 5, //  37
    READ + 6, //  38
    READ + 7, //  39
    READ + 8, //  40
    READ + 9, //  41
    READ + 10, //  42
    READ + 11, //  43
    READ + 12, //  44
    READ + 13, //  45
    READ + 14, //  46
    READ + 15, //  47
    READ + 16, //  48
    READ + 17, //  49
    READ + 18, //  50
    READ + 19, //  51
    READ + 20, //  52
    READ + 21, //  53
    READ + 22, //  54
    READ + 23, //  55
    READ + 24, //  56
    READ + 25, //  57
    READ + 26, //  58
    READ + 27, //  59
    READ + 28, //  60
    READ + 29, //  61
    READ + 30, //  62
    READ + 31, //  63
    WRITE + 0, //  64
    WRITE + 1, //  65
    WRITE + 2, //  66
    WRITE + 3, //  67
    WRITE + 4, //  68
    WRITE + 5, //  69
    WRITE + 6, //  70
    WRITE + 7, //  71
    WRITE + 8, //  72
    WRITE + 9, //  73
    WRITE + 10, //  74
    WRITE + 11, //  75
    WRITE + 12, //  76
    WRITE + 13, //  77
    WRITE + 14, //  78
    WRITE + 15, //  79
    WRITE + 16, //  80
    WRITE + 17, //  81
    WRITE + 18, //  82
    WRITE + 19, //  83
    WRITE + 20, //  84
    WRITE + 21, //  85
    WRITE + 22, //  86
    WRITE + 23, //  87
    WRITE + 24, //  88
    WRITE + 25, //  89
    WRITE + 26, //  90
    WRITE + 27, //  91
    WRITE + 28, //  92
    WRITE + 29, //  93
    WRITE + 30, //  94
    WRITE + 31, //  95
    UNKNOWN, //  96
    UNKNOWN, //  97
    UNKNOWN, //  98
    UNKNOWN, //  99
    UNKNOWN, // 100
    UNKNOWN, // 101
    UNKNOWN, // 102
    UNKNOWN, // 103
    UNKNOWN, // 104
    UNKNOWN, // 105
    UNKNOWN, // 106
    UNKNOWN, // 107
    UNKNOWN, // 108
    UNKNOWN, // 109
    UNKNOWN, // 110
    UNKNOWN, // 111
    UNKNOWN, // 112
    UNKNOWN, // 113
    UNKNOWN, // 114
    UNKNOWN, // 115
    UNKNOWN, // 116
    UNKNOWN, // 117
    UNKNOWN, // 118
    UNKNOWN, // 119
    UNKNOWN, // 120
    UNKNOWN, // 121
    UNKNOWN, // 122
    UNKNOWN, // 123
    UNKNOWN, // 124
    UNKNOWN, // 125
    UNKNOWN, // 126
    UNKNOWN, // 127
    UNKNOWN, // 128
    UNKNOWN, // 129
    UNKNOWN, // 130
    UNKNOWN, // 131
    UNKNOWN, // 132
    UNKNOWN, // 133
    UNKNOWN, // 134
    UNKNOWN, // 135
    UNKNOWN, // 136
    UNKNOWN, // 137
    UNKNOWN, // 138
    UNKNOWN, // 139
    UNKNOWN, // 140
    UNKNOWN, // 141
    UNKNOWN, // 142
    UNKNOWN, // 143
    UNKNOWN, // 144
    UNKNOWN, // 145
    UNKNOWN, // 146
    UNKNOWN, // 147
    UNKNOWN, // 148
    UNKNOWN, // 149
    UNKNOWN, // 150
    UNKNOWN, // 151
    UNKNOWN, // 152
    UNKNOWN, // 153
    UNKNOWN, // 154
    UNKNOWN, // 155
    UNKNOWN, // 156
    UNKNOWN, // 157
    UNKNOWN, // 158
    UNKNOWN, // 159
    UNKNOWN, // 160
    UNKNOWN, // 161
    UNKNOWN, // 162
    UNKNOWN, // 163
    UNKNOWN, // 164
    UNKNOWN, // 165
    UNKNOWN, // 166
    UNKNOWN, // 167
    UNKNOWN, // 168
    UNKNOWN, // 169
    UNKNOWN, // 170
    UNKNOWN, // 171
    UNKNOWN, // 172
    UNKNOWN, // 173
    UNKNOWN, // 174
    UNKNOWN, // 175
    UNKNOWN, // 176
    UNKNOWN, // 177
    UNKNOWN, // 178
    UNKNOWN, // 179
    UNKNOWN, // 180
    UNKNOWN, // 181
    UNKNOWN, // 182
    UNKNOWN, // 183
    UNKNOWN, // 184
    UNKNOWN, // 185
    UNKNOWN, // 186
    UNKNOWN, // 187
    UNKNOWN, // 188
    UNKNOWN, // 189
    UNKNOWN, // 190
    UNKNOWN, // 191
    UNKNOWN, // 192
    UNKNOWN, // 193
    UNKNOWN, // 194
    UNKNOWN, // 195
    UNKNOWN, // 196
    UNKNOWN, // 197
    UNKNOWN, // 198
    UNKNOWN, // 199
    UNKNOWN, // 200
    UNKNOWN, // 201
    UNKNOWN, // 202
    UNKNOWN, // 203
    UNKNOWN, // 204
    UNKNOWN, // 205
    UNKNOWN, // 206
    UNKNOWN, // 207
    UNKNOWN, // 208
    UNKNOWN, // 209
    UNKNOWN, // 210
    UNKNOWN, // 211
    UNKNOWN, // 212
    UNKNOWN, // 213
    UNKNOWN, // 214
    UNKNOWN, // 215
    UNKNOWN, // 216
    UNKNOWN, // 217
    UNKNOWN, // 218
    UNKNOWN, // 219
    UNKNOWN, // 220
    UNKNOWN, // 221
    UNKNOWN, // 222
    UNKNOWN, // 223
    UNKNOWN, // 224
    UNKNOWN, // 225
    UNKNOWN, // 226
    UNKNOWN, // 227
    UNKNOWN, // 228
    UNKNOWN, // 229
    UNKNOWN, // 230
    UNKNOWN, // 231
    UNKNOWN, // 232
    UNKNOWN, // 233
    UNKNOWN, // 234
    UNKNOWN, // 235
    UNKNOWN, // 236
    UNKNOWN, // 237
    UNKNOWN, // 238
    UNKNOWN, // 239
    UNKNOWN, // 240
    UNKNOWN, // 241
    UNKNOWN, // 242
    UNKNOWN, // 243
    UNKNOWN, // 244
    UNKNOWN, // 245
    UNKNOWN, // 246
    UNKNOWN, // 247
    UNKNOWN, // 248
    UNKNOWN, // 249
    UNKNOWN, // 250
    UNKNOWN, // 251
    UNKNOWN, // 252
    UNKNOWN, // 253
    UNKNOWN, // 254
    UNKNOWN, // 255
];

// The table of the plain sheet. It is put together anew wherever it is asked for, so whoever reads many codes asks once and lends it.
pub fn plain_table() -> [u8; CODES]
    ensures { TablePromise plain_sheet result }
{
    SHEET
}
