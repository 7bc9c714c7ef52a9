// The words of crunching, as two tables that are lent together: the bytes of all words, in capitals, with a token for each behind them; and
// an index with the start of each word, its place in its list, and where each group of words begins.
// The V2 words, the operators, the TSB words, the escape names and the words of BASIC 3.5 stand one list behind the other. Within a list
// the words that begin with one byte stand together, in the list's order; the groups stand in the order of these bytes, 20 to 5F.
// A public call has each table built once, and lends it down from there.
ghost use Rattle.std.specs.Prelude.{◌≡◌};
ghost use Rattle.word_tables.specs.StoredHelpers.{word_bytes, word_index};

use crate::Words;

// How many V2 words there are.
pub const V2_WORDS: usize = 68;

// Where the tokens begin behind the bytes of the words.
pub const TOKENS: usize = 1727;

// Where the places begin in the index.
pub const PLACES: usize = 362;

// Where the groups begin in the index: for each list one for each byte from 20 to 5F, and at last the end of all words.
pub const GROUPS: usize = 723;

// The words, and behind them for each word the token of an operator or of a word of V2 or BASIC 3.5, the byte behind 64 of a TSB word, or
// the code of an escape name.
pub const WORD_BYTES: [u8; 2088] = *b"\
    ANDABSATNASCCONTCLRCMDCLOSECOSCHR$DATADIMDEFENDEXPFORFNFREGOTOGOSUBGETGOINPUT#INPUTIFINTLETLOAD\
    LISTLOGLENLEFT$MID$NEXTNEWNOTONOPENORPOKEPRINT#PRINTPOSPEEKREADRUNRESTORERETURNREMRNDRIGHT$STOP\
    SAVESYSSPC(STEPSGNSQRSINSTR$TAB(TOTHENTANUSRVERIFYVALWAIT\
    *+-/<=>^\
    AUTOAT(ANGLARCBLOCKBCKGNDSBFLASHCHARCIRCLECMOBCHECKCOLORCOLOURCLSCSETCALLCENTERCENTRECGOTOCOPY\
    COLDDRAWDOWNBDOWNWDESIGNDETECTDISPLAYDODISABLEDELAYDIRDUMPDISKDIVDUPD!END PROCEND LOOPENVELOPE\
    EXITEXECELSEERREXORFCHRFCOLFILLFRACFLASHFETCHFINDGRAPHICSGLOBALHI COLHIRESHRDCPYINVINKEYINSERT\
    INSTJOYKEYLOW COLLINELEFTWLEFTBLOOPLOCALLINMOB SETMOBCOLMOVEMULTIMMOBMOBMAPMEMMUSICMERGEMOD\
    NO ERRORNRMON KEYON ERROROPTIONOLDOFFOUTPLOTPLACEPAINTPLAYPROCPAUSEPAGEPOTPENXPENYRECROTRIGHTB\
    RIGHTWRLOCMOBREPEATRCOMPRESUMERETRACERESETRENUMBERSOUNDSECURESCRSVSCRLDTEXTTRACETESTUPBUPWUNTIL\
    USEVOLWAVEX!\
    ARROW LEFTARROW UPBLACKBLKBLUEBLUBROWNCYANCYNCLEARCLRCRCM +CM -CM @CM ASTERISKCM *CM POUND\
    CM SPACECM UP ARROWCT UP ARROWDARK GREYDARK GRAYDOWNDELDELETEESCF1F2F3F4F5F6F7F8GREENGRNGREY1\
    GRAY1GREYGRAYGREY2GRAY2GREY3GRAY3HOMEINSTINSERTLIGHT REDLREDLIGHT GREENLGRNLGREENLIGHT BLUELBLU\
    LBLUELIGHT GREYLIGHT GRAYLGREYLGRAYLEFTLFMAGENTAMEDIUM GREYMEDIUM GRAYORANGEORNGPURPLEPURPINK\
    POUNDPIREDRIGHTRETURNRVS ONRVSONRVONREVERSE ONRVS OFFRVSOFFRVOFREVERSE OFFRUNSPACESTOP\
    SH ASTERISKSH *SHIFT ASTERISKSHIFT *SH +SH -SH /SH @SH POUNDSH SPACESHIFT SPACESH CURSOR DOWN\
    SH CURSOR UPSH CURSOR LEFTSH CURSOR RIGHTSH UPSH DOWNSH LEFTSH RIGHTSH HOMESH RETURNUPWHITEWHT\
    YELLOWYEL\
    AUTOBOXBACKUPCHARCIRCLECOLORCOLLECTCOPYDECDRAWDODIRECTORYDSAVEDLOADDELETEERR$ELSEEXITGRAPHIC\
    GSHAPEHEX$HELPHEADERINSTRJOYKEYLOCATELOOPMONITORPUDEFPAINTRGRRCLRRLUMRDOTRESUMERENAMERENUMBER\
    SOUNDSSHAPESCNCLRSCALESCRATCHTRAPTRONTROFFUSINGUNTILVOLWHILE\
    \xAF\xB6\xC1\xC6\x9A\x9C\x9D\xA0\xBE\xC7\x83\x86\x96\x80\xBD\x81\xA5\xB8\x89\x8D\xA1\xCB\x84\x85\
    \x8B\xB5\x88\x93\x9B\xBC\xC3\xC8\xCA\x82\xA2\xA8\x91\x9F\xB0\x97\x98\x99\xB9\xC2\x87\x8A\x8C\x8E\
    \x8F\xBB\xC9\x90\x94\x9E\xA6\xA9\xB4\xBA\xBF\xC4\xA3\xA4\xA7\xC0\xB7\x95\xC5\x92\
    \xAC\xAA\xAB\xAD\xB3\xB2\xB1\xAE\
    \x4F\x28\x6A\x6B\x04\x65\x1C\x0B\x42\x64\x7C\x1A\x1A\x3C\x70\x32\x23\x23\x25\x77\x6C\x0A\x15\x16\
    \x62\x7B\x7D\x22\x38\x3B\x4A\x4C\x72\x53\x55\x54\x34\x36\x24\x35\x33\x47\x7E\x5A\x05\x06\x07\x0E\
    \x1F\x27\x4D\x61\x2E\x0C\x01\x73\x0D\x56\x5B\x57\x51\x74\x76\x03\x13\x14\x3A\x45\x59\x1D\x41\x0F\
    \x19\x1B\x68\x3E\x7A\x1E\x78\x52\x44\x67\x37\x43\x4E\x50\x69\x7F\x02\x10\x75\x21\x31\x66\x4B\x5C\
    \x5D\x5F\x08\x09\x17\x18\x63\x20\x46\x39\x48\x30\x79\x60\x40\x6D\x6E\x6F\x49\x58\x11\x12\x29\x2C\
    \x71\x26\x3D\
    \x5F\x5E\x90\x90\x1F\x1F\x95\x9F\x9F\x93\x93\x0D\xA6\xDC\xA4\xDF\xDF\xA8\xA0\xDE\x1E\x97\x97\x11\
    \x14\x14\x1B\x85\x89\x86\x8A\x87\x8B\x88\x8C\x1E\x1E\x97\x97\x98\x98\x98\x98\x9B\x9B\x13\x94\x94\
    \x96\x96\x99\x99\x99\x9A\x9A\x9A\x9B\x9B\x9B\x9B\x9D\x0A\x9C\x98\x98\x81\x81\x9C\x9C\x96\x5C\xFF\
    \x1C\x1D\x0D\x12\x12\x12\x12\x92\x92\x92\x92\x83\x20\x03\xC0\xC0\xC0\xC0\xDB\xDD\xDF\xBA\xA9\xA0\
    \xA0\x91\x11\x1D\x9D\x91\x11\x1D\x9D\x93\x8D\x91\x05\x05\x9E\x9E\
    \xDC\xE1\xF6\xE0\xE2\xE7\xF3\xF4\xD1\xE5\xEB\xEE\xEF\xF0\xF7\xD3\xD5\xED\xDE\xE3\xD2\xEA\xF1\xD4\
    \xCF\xF9\xE6\xEC\xFA\xDD\xDF\xCC\xCD\xCE\xD0\xD6\xF5\xF8\xDA\xE4\xE8\xE9\xF2\xD7\xD8\xD9\xFB\xFC\
    \xDB\xFD";

pub const WORD_INDEX: [u16; 1044] = [
    // the starts
    0, // AND
    3, // ABS
    6, // ATN
    9, // ASC
    12, // CONT
    16, // CLR
    19, // CMD
    22, // CLOSE
    27, // COS
    30, // CHR$
    34, // DATA
    38, // DIM
    41, // DEF
    44, // END
    47, // EXP
    50, // FOR
    53, // FN
    55, // FRE
    58, // GOTO
    62, // GOSUB
    67, // GET
    70, // GO
    72, // INPUT#
    78, // INPUT
    83, // IF
    85, // INT
    88, // LET
    91, // LOAD
    95, // LIST
    99, // LOG
    102, // LEN
    105, // LEFT$
    110, // MID$
    114, // NEXT
    118, // NEW
    121, // NOT
    124, // ON
    126, // OPEN
    130, // OR
    132, // POKE
    136, // PRINT#
    142, // PRINT
    147, // POS
    150, // PEEK
    154, // READ
    158, // RUN
    161, // RESTORE
    168, // RETURN
    174, // REM
    177, // RND
    180, // RIGHT$
    186, // STOP
    190, // SAVE
    194, // SYS
    197, // SPC(
    201, // STEP
    205, // SGN
    208, // SQR
    211, // SIN
    214, // STR$
    218, // TAB(
    222, // TO
    224, // THEN
    228, // TAN
    231, // USR
    234, // VERIFY
    240, // VAL
    243, // WAIT
    247, // *
    248, // +
    249, // -
    250, // /
    251, // <
    252, // =
    253, // >
    254, // ^
    255, // AUTO
    259, // AT(
    262, // ANGL
    266, // ARC
    269, // BLOCK
    274, // BCKGNDS
    281, // BFLASH
    287, // CHAR
    291, // CIRCLE
    297, // CMOB
    301, // CHECK
    306, // COLOR
    311, // COLOUR
    317, // CLS
    320, // CSET
    324, // CALL
    328, // CENTER
    334, // CENTRE
    340, // CGOTO
    345, // COPY
    349, // COLD
    353, // DRAW
    357, // DOWNB
    362, // DOWNW
    367, // DESIGN
    373, // DETECT
    379, // DISPLAY
    386, // DO
    388, // DISABLE
    395, // DELAY
    400, // DIR
    403, // DUMP
    407, // DISK
    411, // DIV
    414, // DUP
    417, // D!
    419, // END PROC
    427, // END LOOP
    435, // ENVELOPE
    443, // EXIT
    447, // EXEC
    451, // ELSE
    455, // ERR
    458, // EXOR
    462, // FCHR
    466, // FCOL
    470, // FILL
    474, // FRAC
    478, // FLASH
    483, // FETCH
    488, // FIND
    492, // GRAPHICS
    500, // GLOBAL
    506, // HI COL
    512, // HIRES
    517, // HRDCPY
    523, // INV
    526, // INKEY
    531, // INSERT
    537, // INST
    541, // JOY
    544, // KEY
    547, // LOW COL
    554, // LINE
    558, // LEFTW
    563, // LEFTB
    568, // LOOP
    572, // LOCAL
    577, // LIN
    580, // MOB SET
    587, // MOBCOL
    593, // MOVE
    597, // MULTI
    602, // MMOB
    606, // MOB
    609, // MAP
    612, // MEM
    615, // MUSIC
    620, // MERGE
    625, // MOD
    628, // NO ERROR
    636, // NRM
    639, // ON KEY
    645, // ON ERROR
    653, // OPTION
    659, // OLD
    662, // OFF
    665, // OUT
    668, // PLOT
    672, // PLACE
    677, // PAINT
    682, // PLAY
    686, // PROC
    690, // PAUSE
    695, // PAGE
    699, // POT
    702, // PENX
    706, // PENY
    710, // REC
    713, // ROT
    716, // RIGHTB
    722, // RIGHTW
    728, // RLOCMOB
    735, // REPEAT
    741, // RCOMP
    746, // RESUME
    752, // RETRACE
    759, // RESET
    764, // RENUMBER
    772, // SOUND
    777, // SECURE
    783, // SCRSV
    788, // SCRLD
    793, // TEXT
    797, // TRACE
    802, // TEST
    806, // UPB
    809, // UPW
    812, // UNTIL
    817, // USE
    820, // VOL
    823, // WAVE
    827, // X!
    829, // ARROW LEFT
    839, // ARROW UP
    847, // BLACK
    852, // BLK
    855, // BLUE
    859, // BLU
    862, // BROWN
    867, // CYAN
    871, // CYN
    874, // CLEAR
    879, // CLR
    882, // CR
    884, // CM +
    888, // CM -
    892, // CM @
    896, // CM ASTERISK
    907, // CM *
    911, // CM POUND
    919, // CM SPACE
    927, // CM UP ARROW
    938, // CT UP ARROW
    949, // DARK GREY
    958, // DARK GRAY
    967, // DOWN
    971, // DEL
    974, // DELETE
    980, // ESC
    983, // F1
    985, // F2
    987, // F3
    989, // F4
    991, // F5
    993, // F6
    995, // F7
    997, // F8
    999, // GREEN
    1004, // GRN
    1007, // GREY1
    1012, // GRAY1
    1017, // GREY
    1021, // GRAY
    1025, // GREY2
    1030, // GRAY2
    1035, // GREY3
    1040, // GRAY3
    1045, // HOME
    1049, // INST
    1053, // INSERT
    1059, // LIGHT RED
    1068, // LRED
    1072, // LIGHT GREEN
    1083, // LGRN
    1087, // LGREEN
    1093, // LIGHT BLUE
    1103, // LBLU
    1107, // LBLUE
    1112, // LIGHT GREY
    1122, // LIGHT GRAY
    1132, // LGREY
    1137, // LGRAY
    1142, // LEFT
    1146, // LF
    1148, // MAGENTA
    1155, // MEDIUM GREY
    1166, // MEDIUM GRAY
    1177, // ORANGE
    1183, // ORNG
    1187, // PURPLE
    1193, // PUR
    1196, // PINK
    1200, // POUND
    1205, // PI
    1207, // RED
    1210, // RIGHT
    1215, // RETURN
    1221, // RVS ON
    1227, // RVSON
    1232, // RVON
    1236, // REVERSE ON
    1246, // RVS OFF
    1253, // RVSOFF
    1259, // RVOF
    1263, // REVERSE OFF
    1274, // RUN
    1277, // SPACE
    1282, // STOP
    1286, // SH ASTERISK
    1297, // SH *
    1301, // SHIFT ASTERISK
    1315, // SHIFT *
    1322, // SH +
    1326, // SH -
    1330, // SH /
    1334, // SH @
    1338, // SH POUND
    1346, // SH SPACE
    1354, // SHIFT SPACE
    1365, // SH CURSOR DOWN
    1379, // SH CURSOR UP
    1391, // SH CURSOR LEFT
    1405, // SH CURSOR RIGHT
    1420, // SH UP
    1425, // SH DOWN
    1432, // SH LEFT
    1439, // SH RIGHT
    1447, // SH HOME
    1454, // SH RETURN
    1463, // UP
    1465, // WHITE
    1470, // WHT
    1473, // YELLOW
    1479, // YEL
    1482, // AUTO
    1486, // BOX
    1489, // BACKUP
    1495, // CHAR
    1499, // CIRCLE
    1505, // COLOR
    1510, // COLLECT
    1517, // COPY
    1521, // DEC
    1524, // DRAW
    1528, // DO
    1530, // DIRECTORY
    1539, // DSAVE
    1544, // DLOAD
    1549, // DELETE
    1555, // ERR$
    1559, // ELSE
    1563, // EXIT
    1567, // GRAPHIC
    1574, // GSHAPE
    1580, // HEX$
    1584, // HELP
    1588, // HEADER
    1594, // INSTR
    1599, // JOY
    1602, // KEY
    1605, // LOCATE
    1611, // LOOP
    1615, // MONITOR
    1622, // PUDEF
    1627, // PAINT
    1632, // RGR
    1635, // RCLR
    1639, // RLUM
    1643, // RDOT
    1647, // RESUME
    1653, // RENAME
    1659, // RENUMBER
    1667, // SOUND
    1672, // SSHAPE
    1678, // SCNCLR
    1684, // SCALE
    1689, // SCRATCH
    1696, // TRAP
    1700, // TRON
    1704, // TROFF
    1709, // USING
    1714, // UNTIL
    1719, // VOL
    1722, // WHILE
    1727,
    // the places
    42, // AND
    46, // ABS
    57, // ATN
    62, // ASC
    26, // CONT
    28, // CLR
    29, // CMD
    32, // CLOSE
    54, // COS
    63, // CHR$
    3, // DATA
    6, // DIM
    22, // DEF
    0, // END
    53, // EXP
    1, // FOR
    37, // FN
    48, // FRE
    9, // GOTO
    13, // GOSUB
    33, // GET
    67, // GO
    4, // INPUT#
    5, // INPUT
    11, // IF
    45, // INT
    8, // LET
    19, // LOAD
    27, // LIST
    52, // LOG
    59, // LEN
    64, // LEFT$
    66, // MID$
    2, // NEXT
    34, // NEW
    40, // NOT
    17, // ON
    31, // OPEN
    43, // OR
    23, // POKE
    24, // PRINT#
    25, // PRINT
    49, // POS
    58, // PEEK
    7, // READ
    10, // RUN
    12, // RESTORE
    14, // RETURN
    15, // REM
    51, // RND
    65, // RIGHT$
    16, // STOP
    20, // SAVE
    30, // SYS
    38, // SPC(
    41, // STEP
    44, // SGN
    50, // SQR
    55, // SIN
    60, // STR$
    35, // TAB(
    36, // TO
    39, // THEN
    56, // TAN
    47, // USR
    21, // VERIFY
    61, // VAL
    18, // WAIT
    2, // *
    0, // +
    1, // -
    3, // /
    7, // <
    6, // =
    5, // >
    4, // ^
    91, // AUTO
    105, // AT(
    119, // ANGL
    120, // ARC
    12, // BLOCK
    45, // BCKGNDS
    52, // BFLASH
    19, // CHAR
    32, // CIRCLE
    39, // CMOB
    42, // CHECK
    43, // COLOR
    44, // COLOUR
    46, // CLS
    47, // CSET
    67, // CALL
    70, // CENTER
    71, // CENTRE
    72, // CGOTO
    94, // COPY
    101, // COLD
    18, // DRAW
    28, // DOWNB
    29, // DOWNW
    33, // DESIGN
    41, // DETECT
    50, // DISPLAY
    62, // DO
    75, // DISABLE
    80, // DELAY
    86, // DIR
    88, // DUMP
    96, // DISK
    108, // DIV
    115, // DUP
    122, // D!
    4, // END PROC
    5, // END LOOP
    56, // ENVELOPE
    64, // EXIT
    66, // EXEC
    74, // ELSE
    103, // ERR
    109, // EXOR
    13, // FCHR
    14, // FCOL
    15, // FILL
    21, // FRAC
    53, // FLASH
    85, // FETCH
    89, // FIND
    35, // GRAPHICS
    69, // GLOBAL
    0, // HI COL
    9, // HIRES
    97, // HRDCPY
    20, // INV
    111, // INKEY
    112, // INSERT
    113, // INST
    110, // JOY
    98, // KEY
    1, // LOW COL
    11, // LINE
    26, // LEFTW
    27, // LEFTB
    63, // LOOP
    68, // LOCAL
    106, // LIN
    2, // MOB SET
    3, // MOBCOL
    22, // MOVE
    36, // MULTI
    37, // MMOB
    40, // MOB
    48, // MAP
    49, // MEM
    54, // MUSIC
    95, // MERGE
    107, // MOD
    8, // NO ERROR
    84, // NRM
    6, // ON KEY
    7, // ON ERROR
    90, // OPTION
    92, // OLD
    102, // OFF
    104, // OUT
    10, // PLOT
    23, // PLACE
    34, // PAINT
    55, // PLAY
    65, // PROC
    79, // PAUSE
    87, // PAGE
    116, // POT
    117, // PENX
    118, // PENY
    16, // REC
    17, // ROT
    30, // RIGHTB
    31, // RIGHTW
    38, // RLOCMOB
    60, // REPEAT
    73, // RCOMP
    76, // RESUME
    77, // RETRACE
    82, // RESET
    93, // RENUMBER
    58, // SOUND
    83, // SECURE
    99, // SCRSV
    100, // SCRLD
    51, // TEXT
    78, // TRACE
    114, // TEST
    24, // UPB
    25, // UPW
    61, // UNTIL
    81, // USE
    59, // VOL
    57, // WAVE
    121, // X!
    80, // ARROW LEFT
    81, // ARROW UP
    0, // BLACK
    1, // BLK
    12, // BLUE
    13, // BLU
    18, // BROWN
    5, // CYAN
    6, // CYN
    45, // CLEAR
    46, // CLR
    56, // CR
    103, // CM +
    104, // CM -
    105, // CM @
    106, // CM ASTERISK
    107, // CM *
    108, // CM POUND
    109, // CM SPACE
    110, // CM UP ARROW
    111, // CT UP ARROW
    22, // DARK GREY
    23, // DARK GRAY
    48, // DOWN
    53, // DEL
    54, // DELETE
    58, // ESC
    70, // F1
    71, // F2
    72, // F3
    73, // F4
    74, // F5
    75, // F6
    76, // F7
    77, // F8
    10, // GREEN
    11, // GRN
    24, // GREY1
    25, // GRAY1
    26, // GREY
    27, // GRAY
    30, // GREY2
    31, // GRAY2
    42, // GREY3
    43, // GRAY3
    44, // HOME
    51, // INST
    52, // INSERT
    20, // LIGHT RED
    21, // LRED
    32, // LIGHT GREEN
    33, // LGRN
    34, // LGREEN
    35, // LIGHT BLUE
    36, // LBLU
    37, // LBLUE
    38, // LIGHT GREY
    39, // LIGHT GRAY
    40, // LGREY
    41, // LGRAY
    49, // LEFT
    57, // LF
    9, // MAGENTA
    28, // MEDIUM GREY
    29, // MEDIUM GRAY
    16, // ORANGE
    17, // ORNG
    7, // PURPLE
    8, // PUR
    19, // PINK
    78, // POUND
    79, // PI
    4, // RED
    50, // RIGHT
    55, // RETURN
    60, // RVS ON
    61, // RVSON
    62, // RVON
    63, // REVERSE ON
    64, // RVS OFF
    65, // RVSOFF
    66, // RVOF
    67, // REVERSE OFF
    69, // RUN
    59, // SPACE
    68, // STOP
    82, // SH ASTERISK
    83, // SH *
    84, // SHIFT ASTERISK
    85, // SHIFT *
    86, // SH +
    87, // SH -
    88, // SH /
    89, // SH @
    90, // SH POUND
    91, // SH SPACE
    92, // SHIFT SPACE
    93, // SH CURSOR DOWN
    94, // SH CURSOR UP
    95, // SH CURSOR LEFT
    96, // SH CURSOR RIGHT
    97, // SH UP
    98, // SH DOWN
    99, // SH LEFT
    100, // SH RIGHT
    101, // SH HOME
    102, // SH RETURN
    47, // UP
    2, // WHITE
    3, // WHT
    14, // YELLOW
    15, // YEL
    16, // AUTO
    21, // BOX
    42, // BACKUP
    20, // CHAR
    22, // CIRCLE
    27, // COLOR
    39, // COLLECT
    40, // COPY
    5, // DEC
    25, // DRAW
    31, // DO
    34, // DIRECTORY
    35, // DSAVE
    36, // DLOAD
    43, // DELETE
    7, // ERR$
    9, // ELSE
    33, // EXIT
    18, // GRAPHIC
    23, // GSHAPE
    6, // HEX$
    30, // HELP
    37, // HEADER
    8, // INSTR
    3, // JOY
    45, // KEY
    26, // LOCATE
    32, // LOOP
    46, // MONITOR
    17, // PUDEF
    19, // PAINT
    0, // RGR
    1, // RCLR
    2, // RLUM
    4, // RDOT
    10, // RESUME
    41, // RENAME
    44, // RENUMBER
    14, // SOUND
    24, // SSHAPE
    28, // SCNCLR
    29, // SCALE
    38, // SCRATCH
    11, // TRAP
    12, // TRON
    13, // TROFF
    47, // USING
    48, // UNTIL
    15, // VOL
    49, // WHILE
    // the groups
    0, // the V2 words: blank
    0, // the V2 words: !
    0, // the V2 words: "
    0, // the V2 words: #
    0, // the V2 words: $
    0, // the V2 words: %
    0, // the V2 words: &
    0, // the V2 words: '
    0, // the V2 words: (
    0, // the V2 words: )
    0, // the V2 words: *
    0, // the V2 words: +
    0, // the V2 words: ,
    0, // the V2 words: -
    0, // the V2 words: .
    0, // the V2 words: /
    0, // the V2 words: 0
    0, // the V2 words: 1
    0, // the V2 words: 2
    0, // the V2 words: 3
    0, // the V2 words: 4
    0, // the V2 words: 5
    0, // the V2 words: 6
    0, // the V2 words: 7
    0, // the V2 words: 8
    0, // the V2 words: 9
    0, // the V2 words: :
    0, // the V2 words: ;
    0, // the V2 words: <
    0, // the V2 words: =
    0, // the V2 words: >
    0, // the V2 words: ?
    0, // the V2 words: @
    0, // the V2 words: A
    4, // the V2 words: B
    4, // the V2 words: C
    10, // the V2 words: D
    13, // the V2 words: E
    15, // the V2 words: F
    18, // the V2 words: G
    22, // the V2 words: H
    22, // the V2 words: I
    26, // the V2 words: J
    26, // the V2 words: K
    26, // the V2 words: L
    32, // the V2 words: M
    33, // the V2 words: N
    36, // the V2 words: O
    39, // the V2 words: P
    44, // the V2 words: Q
    44, // the V2 words: R
    51, // the V2 words: S
    60, // the V2 words: T
    64, // the V2 words: U
    65, // the V2 words: V
    67, // the V2 words: W
    68, // the V2 words: X
    68, // the V2 words: Y
    68, // the V2 words: Z
    68, // the V2 words: [
    68, // the V2 words: \
    68, // the V2 words: ]
    68, // the V2 words: ^
    68, // the V2 words: _
    68, // the operators: blank
    68, // the operators: !
    68, // the operators: "
    68, // the operators: #
    68, // the operators: $
    68, // the operators: %
    68, // the operators: &
    68, // the operators: '
    68, // the operators: (
    68, // the operators: )
    68, // the operators: *
    69, // the operators: +
    70, // the operators: ,
    70, // the operators: -
    71, // the operators: .
    71, // the operators: /
    72, // the operators: 0
    72, // the operators: 1
    72, // the operators: 2
    72, // the operators: 3
    72, // the operators: 4
    72, // the operators: 5
    72, // the operators: 6
    72, // the operators: 7
    72, // the operators: 8
    72, // the operators: 9
    72, // the operators: :
    72, // the operators: ;
    72, // the operators: <
    73, // the operators: =
    74, // the operators: >
    75, // the operators: ?
    75, // the operators: @
    75, // the operators: A
    75, // the operators: B
    75, // the operators: C
    75, // the operators: D
    75, // the operators: E
    75, // the operators: F
    75, // the operators: G
    75, // the operators: H
    75, // the operators: I
    75, // the operators: J
    75, // the operators: K
    75, // the operators: L
    75, // the operators: M
    75, // the operators: N
    75, // the operators: O
    75, // the operators: P
    75, // the operators: Q
    75, // the operators: R
    75, // the operators: S
    75, // the operators: T
    75, // the operators: U
    75, // the operators: V
    75, // the operators: W
    75, // the operators: X
    75, // the operators: Y
    75, // the operators: Z
    75, // the operators: [
    75, // the operators: \
    75, // the operators: ]
    75, // the operators: ^
    76, // the operators: _
    76, // the TSB words: blank
    76, // the TSB words: !
    76, // the TSB words: "
    76, // the TSB words: #
    76, // the TSB words: $
    76, // the TSB words: %
    76, // the TSB words: &
    76, // the TSB words: '
    76, // the TSB words: (
    76, // the TSB words: )
    76, // the TSB words: *
    76, // the TSB words: +
    76, // the TSB words: ,
    76, // the TSB words: -
    76, // the TSB words: .
    76, // the TSB words: /
    76, // the TSB words: 0
    76, // the TSB words: 1
    76, // the TSB words: 2
    76, // the TSB words: 3
    76, // the TSB words: 4
    76, // the TSB words: 5
    76, // the TSB words: 6
    76, // the TSB words: 7
    76, // the TSB words: 8
    76, // the TSB words: 9
    76, // the TSB words: :
    76, // the TSB words: ;
    76, // the TSB words: <
    76, // the TSB words: =
    76, // the TSB words: >
    76, // the TSB words: ?
    76, // the TSB words: @
    76, // the TSB words: A
    80, // the TSB words: B
    83, // the TSB words: C
    97, // the TSB words: D
    112, // the TSB words: E
    120, // the TSB words: F
    127, // the TSB words: G
    129, // the TSB words: H
    132, // the TSB words: I
    136, // the TSB words: J
    137, // the TSB words: K
    138, // the TSB words: L
    145, // the TSB words: M
    156, // the TSB words: N
    158, // the TSB words: O
    164, // the TSB words: P
    174, // the TSB words: Q
    174, // the TSB words: R
    185, // the TSB words: S
    189, // the TSB words: T
    192, // the TSB words: U
    196, // the TSB words: V
    197, // the TSB words: W
    198, // the TSB words: X
    199, // the TSB words: Y
    199, // the TSB words: Z
    199, // the TSB words: [
    199, // the TSB words: \
    199, // the TSB words: ]
    199, // the TSB words: ^
    199, // the TSB words: _
    199, // the escape names: blank
    199, // the escape names: !
    199, // the escape names: "
    199, // the escape names: #
    199, // the escape names: $
    199, // the escape names: %
    199, // the escape names: &
    199, // the escape names: '
    199, // the escape names: (
    199, // the escape names: )
    199, // the escape names: *
    199, // the escape names: +
    199, // the escape names: ,
    199, // the escape names: -
    199, // the escape names: .
    199, // the escape names: /
    199, // the escape names: 0
    199, // the escape names: 1
    199, // the escape names: 2
    199, // the escape names: 3
    199, // the escape names: 4
    199, // the escape names: 5
    199, // the escape names: 6
    199, // the escape names: 7
    199, // the escape names: 8
    199, // the escape names: 9
    199, // the escape names: :
    199, // the escape names: ;
    199, // the escape names: <
    199, // the escape names: =
    199, // the escape names: >
    199, // the escape names: ?
    199, // the escape names: @
    199, // the escape names: A
    201, // the escape names: B
    206, // the escape names: C
    220, // the escape names: D
    225, // the escape names: E
    226, // the escape names: F
    234, // the escape names: G
    244, // the escape names: H
    245, // the escape names: I
    247, // the escape names: J
    247, // the escape names: K
    247, // the escape names: L
    261, // the escape names: M
    264, // the escape names: N
    264, // the escape names: O
    266, // the escape names: P
    271, // the escape names: Q
    271, // the escape names: R
    283, // the escape names: S
    306, // the escape names: T
    306, // the escape names: U
    307, // the escape names: V
    307, // the escape names: W
    309, // the escape names: X
    309, // the escape names: Y
    311, // the escape names: Z
    311, // the escape names: [
    311, // the escape names: \
    311, // the escape names: ]
    311, // the escape names: ^
    311, // the escape names: _
    311, // the words of BASIC 3.5: blank
    311, // the words of BASIC 3.5: !
    311, // the words of BASIC 3.5: "
    311, // the words of BASIC 3.5: #
    311, // the words of BASIC 3.5: $
    311, // the words of BASIC 3.5: %
    311, // the words of BASIC 3.5: &
    311, // the words of BASIC 3.5: '
    311, // the words of BASIC 3.5: (
    311, // the words of BASIC 3.5: )
    311, // the words of BASIC 3.5: *
    311, // the words of BASIC 3.5: +
    311, // the words of BASIC 3.5: ,
    311, // the words of BASIC 3.5: -
    311, // the words of BASIC 3.5: .
    311, // the words of BASIC 3.5: /
    311, // the words of BASIC 3.5: 0
    311, // the words of BASIC 3.5: 1
    311, // the words of BASIC 3.5: 2
    311, // the words of BASIC 3.5: 3
    311, // the words of BASIC 3.5: 4
    311, // the words of BASIC 3.5: 5
    311, // the words of BASIC 3.5: 6
    311, // the words of BASIC 3.5: 7
    311, // the words of BASIC 3.5: 8
    311, // the words of BASIC 3.5: 9
    311, // the words of BASIC 3.5: :
    311, // the words of BASIC 3.5: ;
    311, // the words of BASIC 3.5: <
    311, // the words of BASIC 3.5: =
    311, // the words of BASIC 3.5: >
    311, // the words of BASIC 3.5: ?
    311, // the words of BASIC 3.5: @
    311, // the words of BASIC 3.5: A
    312, // the words of BASIC 3.5: B
    314, // the words of BASIC 3.5: C
    319, // the words of BASIC 3.5: D
    326, // the words of BASIC 3.5: E
    329, // the words of BASIC 3.5: F
    329, // the words of BASIC 3.5: G
    331, // the words of BASIC 3.5: H
    334, // the words of BASIC 3.5: I
    335, // the words of BASIC 3.5: J
    336, // the words of BASIC 3.5: K
    337, // the words of BASIC 3.5: L
    339, // the words of BASIC 3.5: M
    340, // the words of BASIC 3.5: N
    340, // the words of BASIC 3.5: O
    340, // the words of BASIC 3.5: P
    342, // the words of BASIC 3.5: Q
    342, // the words of BASIC 3.5: R
    349, // the words of BASIC 3.5: S
    354, // the words of BASIC 3.5: T
    357, // the words of BASIC 3.5: U
    359, // the words of BASIC 3.5: V
    360, // the words of BASIC 3.5: W
    361, // the words of BASIC 3.5: X
    361, // the words of BASIC 3.5: Y
    361, // the words of BASIC 3.5: Z
    361, // the words of BASIC 3.5: [
    361, // the words of BASIC 3.5: \
    361, // the words of BASIC 3.5: ]
    361, // the words of BASIC 3.5: ^
    361, // the words of BASIC 3.5: _
    361,
];

// The bytes, which are those of the documents' lists.
pub fn word_bytes() -> [u8; 2088]
    ensures { result ≡ word_bytes }
{
    WORD_BYTES
}

// The index, which is that of the documents' lists.
pub fn word_index() -> [u16; 1044]
    ensures { result ≡ word_index }
{
    WORD_INDEX
}

// The two tables, lent.
pub fn stored_words() -> Words<'static>
    ensures bytes { result.bytes.now ≡ word_bytes }
    ensures index { result.index.now ≡ word_index }
{
    Words {
        bytes: &WORD_BYTES,
        index: &WORD_INDEX,
    }
}
