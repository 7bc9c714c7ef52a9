// The words of listing as one run of bytes, with a start for each and one behind the last: below 80 the TSB word of the byte behind a 64,
// empty where there is none; from 80 on the word of a byte outside quotes, empty where it is listed as its two digits; and behind FF the words of
// BASIC 3.5, CC to FD. Digits are worked out.
#![tactic(auto)]

ghost use Rattle.std.specs.Prelude.{◌≡◌};
ghost use Rattle.word_search.specs.Compare.{same};
ghost use Rattle.list_texts.specs.Texts.{braced, text_of};
ghost use Rattle.list_texts.specs.TextsHelpers.{listed_word, listed_word35, SpellsTexts};

pub const TEXT_BYTES: [u8; 1066] = *b"\
    HIRESPLOTLINEBLOCKFCHRFCOLFILLRECROTDRAWCHARHI COLINVFRACMOVEPLACEUPBUPWLEFTWLEFTBDOWNBDOWNW\
    RIGHTBRIGHTWMULTICOLORMMOBBFLASHMOB SETMUSICFLASHREPEATPLAYDOCENTERENVELOPECGOTOWAVEFETCHAT(\
    UNTILUSEGLOBALRESETPROCCALLEXECEND PROCEXITEND LOOPON KEYDISABLERESUMELOOPDELAYCLSX!MAPSECURE\
    MOBCOLCIRCLEON ERRORNO ERRORLOCALRCOMPELSERETRACETRACEDIRPAGEDUMPFINDOPTIONAUTOOLDJOYMODDIVD!DUP\
    INKEYINSTTESTLINEXORINSERTPOTPENXPENYSOUNDGRAPHICSDESIGNRLOCMOBCMOBBCKGNDSPAUSENRMMOBOFFANGLARC\
    COLDSCRSVSCRLDTEXTCSETVOLDISKHRDCPYKEYPAINTLOW COLCOPYMERGERENUMBERMEMDETECTCHECKDISPLAYERROUT\
    ENDFORNEXTDATAINPUT#INPUTDIMREADLETGOTORUNIFRESTOREGOSUBRETURNREMSTOPONWAITLOADSAVEVERIFYDEFPOKE\
    PRINT#PRINTCONTLISTCLRCMDSYSOPENCLOSEGETNEWTAB(TOFNSPC(THENNOTSTEP+-*/^ANDOR>=<SGNINTABSUSRFRE\
    POSSQRRNDLOGEXPCOSSINTANATNPEEKLENSTR$VALASCCHR$LEFT$RIGHT$MID$GO{PI}\
    RGRRCLRRLUMJOYRDOTDECHEX$ERR$INSTRELSERESUMETRAPTRONTROFFSOUNDVOLAUTOPUDEFGRAPHICPAINTCHARBOX\
    CIRCLEGSHAPESSHAPEDRAWLOCATECOLORSCNCLRSCALEHELPDOLOOPEXITDIRECTORYDSAVEDLOADHEADERSCRATCH\
    COLLECTCOPYRENAMEBACKUPDELETERENUMBERKEYMONITORUSINGUNTILWHILE";

pub const TEXT_STARTS: [u16; 307] = [
    0, // 00
    0, // 01 HIRES
    5, // 02 PLOT
    9, // 03 LINE
    13, // 04 BLOCK
    18, // 05 FCHR
    22, // 06 FCOL
    26, // 07 FILL
    30, // 08 REC
    33, // 09 ROT
    36, // 0A DRAW
    40, // 0B CHAR
    44, // 0C HI COL
    50, // 0D INV
    53, // 0E FRAC
    57, // 0F MOVE
    61, // 10 PLACE
    66, // 11 UPB
    69, // 12 UPW
    72, // 13 LEFTW
    77, // 14 LEFTB
    82, // 15 DOWNB
    87, // 16 DOWNW
    92, // 17 RIGHTB
    98, // 18 RIGHTW
    104, // 19 MULTI
    109, // 1A COLOR
    114, // 1B MMOB
    118, // 1C BFLASH
    124, // 1D MOB SET
    131, // 1E MUSIC
    136, // 1F FLASH
    141, // 20 REPEAT
    147, // 21 PLAY
    151, // 22 DO
    153, // 23 CENTER
    159, // 24 ENVELOPE
    167, // 25 CGOTO
    172, // 26 WAVE
    176, // 27 FETCH
    181, // 28 AT(
    184, // 29 UNTIL
    189, // 2A
    189, // 2B
    189, // 2C USE
    192, // 2D
    192, // 2E GLOBAL
    198, // 2F
    198, // 30 RESET
    203, // 31 PROC
    207, // 32 CALL
    211, // 33 EXEC
    215, // 34 END PROC
    223, // 35 EXIT
    227, // 36 END LOOP
    235, // 37 ON KEY
    241, // 38 DISABLE
    248, // 39 RESUME
    254, // 3A LOOP
    258, // 3B DELAY
    263, // 3C CLS
    266, // 3D X!
    268, // 3E MAP
    271, // 3F
    271, // 40 SECURE
    277, // 41 MOBCOL
    283, // 42 CIRCLE
    289, // 43 ON ERROR
    297, // 44 NO ERROR
    305, // 45 LOCAL
    310, // 46 RCOMP
    315, // 47 ELSE
    319, // 48 RETRACE
    326, // 49 TRACE
    331, // 4A DIR
    334, // 4B PAGE
    338, // 4C DUMP
    342, // 4D FIND
    346, // 4E OPTION
    352, // 4F AUTO
    356, // 50 OLD
    359, // 51 JOY
    362, // 52 MOD
    365, // 53 DIV
    368, // 54 D!
    370, // 55 DUP
    373, // 56 INKEY
    378, // 57 INST
    382, // 58 TEST
    386, // 59 LIN
    389, // 5A EXOR
    393, // 5B INSERT
    399, // 5C POT
    402, // 5D PENX
    406, // 5E
    406, // 5F PENY
    410, // 60 SOUND
    415, // 61 GRAPHICS
    423, // 62 DESIGN
    429, // 63 RLOCMOB
    436, // 64 CMOB
    440, // 65 BCKGNDS
    447, // 66 PAUSE
    452, // 67 NRM
    455, // 68 MOB
    458, // 69 OFF
    461, // 6A ANGL
    465, // 6B ARC
    468, // 6C COLD
    472, // 6D SCRSV
    477, // 6E SCRLD
    482, // 6F TEXT
    486, // 70 CSET
    490, // 71 VOL
    493, // 72 DISK
    497, // 73 HRDCPY
    503, // 74 KEY
    506, // 75 PAINT
    511, // 76 LOW COL
    518, // 77 COPY
    522, // 78 MERGE
    527, // 79 RENUMBER
    535, // 7A MEM
    538, // 7B DETECT
    544, // 7C CHECK
    549, // 7D DISPLAY
    556, // 7E ERR
    559, // 7F OUT
    562, // 80 END
    565, // 81 FOR
    568, // 82 NEXT
    572, // 83 DATA
    576, // 84 INPUT#
    582, // 85 INPUT
    587, // 86 DIM
    590, // 87 READ
    594, // 88 LET
    597, // 89 GOTO
    601, // 8A RUN
    604, // 8B IF
    606, // 8C RESTORE
    613, // 8D GOSUB
    618, // 8E RETURN
    624, // 8F REM
    627, // 90 STOP
    631, // 91 ON
    633, // 92 WAIT
    637, // 93 LOAD
    641, // 94 SAVE
    645, // 95 VERIFY
    651, // 96 DEF
    654, // 97 POKE
    658, // 98 PRINT#
    664, // 99 PRINT
    669, // 9A CONT
    673, // 9B LIST
    677, // 9C CLR
    680, // 9D CMD
    683, // 9E SYS
    686, // 9F OPEN
    690, // A0 CLOSE
    695, // A1 GET
    698, // A2 NEW
    701, // A3 TAB(
    705, // A4 TO
    707, // A5 FN
    709, // A6 SPC(
    713, // A7 THEN
    717, // A8 NOT
    720, // A9 STEP
    724, // AA +
    725, // AB -
    726, // AC *
    727, // AD /
    728, // AE ^
    729, // AF AND
    732, // B0 OR
    734, // B1 >
    735, // B2 =
    736, // B3 <
    737, // B4 SGN
    740, // B5 INT
    743, // B6 ABS
    746, // B7 USR
    749, // B8 FRE
    752, // B9 POS
    755, // BA SQR
    758, // BB RND
    761, // BC LOG
    764, // BD EXP
    767, // BE COS
    770, // BF SIN
    773, // C0 TAN
    776, // C1 ATN
    779, // C2 PEEK
    783, // C3 LEN
    786, // C4 STR$
    790, // C5 VAL
    793, // C6 ASC
    796, // C7 CHR$
    800, // C8 LEFT$
    805, // C9 RIGHT$
    811, // CA MID$
    815, // CB GO
    817, // CC
    817, // CD
    817, // CE
    817, // CF
    817, // D0
    817, // D1
    817, // D2
    817, // D3
    817, // D4
    817, // D5
    817, // D6
    817, // D7
    817, // D8
    817, // D9
    817, // DA
    817, // DB
    817, // DC
    817, // DD
    817, // DE
    817, // DF
    817, // E0
    817, // E1
    817, // E2
    817, // E3
    817, // E4
    817, // E5
    817, // E6
    817, // E7
    817, // E8
    817, // E9
    817, // EA
    817, // EB
    817, // EC
    817, // ED
    817, // EE
    817, // EF
    817, // F0
    817, // F1
    817, // F2
    817, // F3
    817, // F4
    817, // F5
    817, // F6
    817, // F7
    817, // F8
    817, // F9
    817, // FA
    817, // FB
    817, // FC
    817, // FD
    817, // FE
    817, // FF {PI}
    821, // CC RGR under BASIC 3.5
    824, // CD RCLR under BASIC 3.5
    828, // CE RLUM under BASIC 3.5
    832, // CF JOY under BASIC 3.5
    835, // D0 RDOT under BASIC 3.5
    839, // D1 DEC under BASIC 3.5
    842, // D2 HEX$ under BASIC 3.5
    846, // D3 ERR$ under BASIC 3.5
    850, // D4 INSTR under BASIC 3.5
    855, // D5 ELSE under BASIC 3.5
    859, // D6 RESUME under BASIC 3.5
    865, // D7 TRAP under BASIC 3.5
    869, // D8 TRON under BASIC 3.5
    873, // D9 TROFF under BASIC 3.5
    878, // DA SOUND under BASIC 3.5
    883, // DB VOL under BASIC 3.5
    886, // DC AUTO under BASIC 3.5
    890, // DD PUDEF under BASIC 3.5
    895, // DE GRAPHIC under BASIC 3.5
    902, // DF PAINT under BASIC 3.5
    907, // E0 CHAR under BASIC 3.5
    911, // E1 BOX under BASIC 3.5
    914, // E2 CIRCLE under BASIC 3.5
    920, // E3 GSHAPE under BASIC 3.5
    926, // E4 SSHAPE under BASIC 3.5
    932, // E5 DRAW under BASIC 3.5
    936, // E6 LOCATE under BASIC 3.5
    942, // E7 COLOR under BASIC 3.5
    947, // E8 SCNCLR under BASIC 3.5
    953, // E9 SCALE under BASIC 3.5
    958, // EA HELP under BASIC 3.5
    962, // EB DO under BASIC 3.5
    964, // EC LOOP under BASIC 3.5
    968, // ED EXIT under BASIC 3.5
    972, // EE DIRECTORY under BASIC 3.5
    981, // EF DSAVE under BASIC 3.5
    986, // F0 DLOAD under BASIC 3.5
    991, // F1 HEADER under BASIC 3.5
    997, // F2 SCRATCH under BASIC 3.5
    1004, // F3 COLLECT under BASIC 3.5
    1011, // F4 COPY under BASIC 3.5
    1015, // F5 RENAME under BASIC 3.5
    1021, // F6 BACKUP under BASIC 3.5
    1027, // F7 DELETE under BASIC 3.5
    1033, // F8 RENUMBER under BASIC 3.5
    1041, // F9 KEY under BASIC 3.5
    1044, // FA MONITOR under BASIC 3.5
    1051, // FB USING under BASIC 3.5
    1056, // FC UNTIL under BASIC 3.5
    1061, // FD WHILE under BASIC 3.5
    1066,
];

// The words that a listing writes, as one run of bytes with a start for each: the run spells them.
#[derive(Clone, Copy)]
pub struct Texts<'a, 's> {
    pub bytes: &'a [u8],
    pub starts: &'s [u16],
    ghost spelt: { SpellsTexts bytes.now starts.now },
}

// The run, lent.
pub fn stored_texts() -> Texts<'static, 'static>
    ensures { SpellsTexts result.bytes.now result.starts.now }
{
    Texts {
        bytes: &TEXT_BYTES,
        starts: &TEXT_STARTS,
    }
}

// The word of a byte; empty where it has none.
pub fn word_at<'a, 's>(texts: Texts<'a, 's>, k: u8) -> &'a [u8]
    ensures { result.now ≡ listed_word k }
{
    word_search::word_at(texts.bytes, texts.starts, usize::from(k))
}

// The word of a byte under BASIC 3.5.
pub fn word35_at<'a, 's>(texts: Texts<'a, 's>, k: u8) -> &'a [u8]
    ensures { result.now ≡ listed_word35 k }
{
    match k {
        0xCC..=0xFD => word_search::word_at(texts.bytes, texts.starts, usize::from(k) + 52),
        _ => word_at(texts, k),
    }
}

// The two digits of a byte in braces.
pub fn digits(k: u8) -> [u8; 4]
    ensures { result ≡ braced k }
{
    let high = list_bytes::hex_digit(k / 16);
    let low = list_bytes::hex_digit(k % 16);
    [b'{', high, low, b'}']
}

// Whether the text is the one of a byte.
pub fn is_text_of(k: u8, text: &[u8]) -> bool
    ensures { result ≡ same (text_of k) text.now }
{
    match k {
        0xCC..=0xFE => word_search::same(&digits(k), text),
        _ => word_search::same(word_at(stored_texts(), k), text),
    }
}
