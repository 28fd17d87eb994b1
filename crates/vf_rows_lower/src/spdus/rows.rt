/// Octets, and what they are read as. Octets are pairs of digits, or so many that are `x`. An SPDU is shown by its name,
/// its fields by the identifiers of their parameters, and its user data, by their number where there are more than 8.
pub(super) const ROWS: &str = "
# each SPDU
0D0D 0503130100 14020002 C1026869            = CN 20=2 6869
0D14 050C130100160102170137 1A0100 9900 1402002A = CN 20=42 23=7 26=0
0D13 050C130100160102170137 1A0100 1402002A  = Length 1
0D12 050C130100160102170137 1A0100 1402002A  = CN 20=42 23=7 26=0
0E04 14020002                                = AC 20=2
0C05 3203026869                              = RF 50=2 6869
0C05 3203016869                              = RF 50=1
0900                                         = FN
0A03 C10178                                  = DN 78
1903 110109                                  = AB 17=9
1903 110103                                  = AB 17=3
1A00                                         = AA
1A02 2A00                                    = AA
0103 100104                                  = GT 16=4
0100                                         = GT
0100 0100 64617461                           = GT, DT 64617461
0100 0103 2A0158                             = GT, DT
0100 0100                                    = GT, DT
0100 3108 2A06393939393939                   = GT, MIP 42=999999
0100 3208 2A0131 2A03303032                  = GT, MIA 42=2
0100 350B 2A0131 1B0101 1A0104 C100          = GT, RS 26=4 27=1 42=1
0100 2206 2A0130 C10178                      = GT, RA 42=0 78
0103100104 3103 2A0135                       = GT 16=4, MIP 42=5
# an identifier that its TSDU can't have at that place
-                                            = Code 0
0200                                         = Code 0
3103 2A0131                                  = Code 0
3203 2A0131                                  = Code 0
3506 1B0100 2A0131                           = Code 0
2203 2A0131                                  = Code 0
1000                                         = Code 0
0100 0D00                                    = Code 2
0100 0E00                                    = Code 2
0100 0C00                                    = Code 2
0100 0A00                                    = Code 2
0100 1900                                    = Code 2
0100 1A00                                    = Code 2
0103100104 09                                = Code 5
0100 0101                                    = Length 3
0100 FF                                      = Code 2
# a GT after a GT is a DT, with parameters that are skipped
0100 0103100104                              = GT, DT
0100 0100 0100                               = GT, DT 0100
# a length that is cut off, or passes what holds it
01                                           = Length 1
09                                           = Length 1
0901                                         = Length 1
09FF                                         = Length 1
09FF00                                       = Length 1
09FF0000                                     = FN
09FF0001                                     = Length 1
09FF0001 C1                                  = Length 5
0901 C1                                      = Length 3
0902 C1FF                                    = Length 3
0903 C102 78                                 = Length 3
0904 C1FF00 00                               = FN
0905 C1FF0001 78                             = FN 78
0905 C1FF0002 78                             = Length 3
0100 01                                      = Length 3
0100 31                                      = Length 3
0100 0101 2A                                 = Length 5
0100 31FF00                                  = Length 3
0D04 0502 1301                               = Length 5
0D03 0501 13                                 = Length 5
0D06 0504 17FF00 00                          = Value 23 at 0
0101 10                                      = Length 3
0DFE *253                                    = Length 1
# octets after the last SPDU
0900 01                                      = Length 2
0900 0900                                    = Length 2
0D04 14020002 00                             = Length 6
0E04 14020002 0900                           = Length 6
1A00 00                                      = Length 2
0100 3103 2A0131 00                          = Length 7
0100 3203 2A0131 0100                        = Length 7
0100 3506 1B0100 2A0131 1A                   = Length 10
0100 2203 2A0131 2203 2A0131                 = Length 7
# before that each fault of the SPDU itself
0100 3100 00                                 = Missing 42 at 2
0E00 00                                      = Missing 20 at 0
1903 110203                                  = Length 3
# parameters of CN: absent, repeated, wrong, unknown, missing
0D04 1402002A                                = CN 20=42
0D06 0500 1402002A                           = CN 20=42
0D0C 0506 170131 170132 1402002A             = CN 20=42 23=2
0D0E 0503 170131 0503 170133 1402002A        = CN 20=42 23=3
0D08 14020002 1402002A                       = CN 20=42
0D0C 0506 130100 130100 1402002A             = CN 20=42
0D08 0504 130100 13 1402002A                 = Length 8
0D0C 0506 160102 160102 14020002             = CN 20=2
0D0C 0506 1A0100 1A0100 14020002             = CN 20=2 26=0
0D0A C1016A C1016B 14020002                  = CN 20=2 6B
0D0A C10161 C20162 14020002                  = CN 20=2 62
0D0A C20162 C10161 14020002                  = CN 20=2 61
0D0A C20161 C20162 14020002                  = CN 20=2 62
0D06 C100 14020002                           = CN 20=2
0D06 C200 14020002                           = CN 20=2
0D0E 0508 1706303030303037 1402002A          = CN 20=42 23=7
0D07 17013A 14020002                         = CN 20=2
0D07 1A0104 14020002                         = CN 20=2
0D08 01020AFF 14020002                       = CN 20=2
0D07 2A013A 14020002                         = CN 20=2
0D08 0502 9900 14020002                      = CN 20=2
0D05 0503 130101                             = Value 19 at 0
0D04 0502 1300                               = Value 19 at 0
0D05 0503 160101                             = Value 22 at 0
0D06 0504 16020202                           = Value 22 at 0
0D04 0502 1700                               = Value 23 at 0
0D05 0503 17012F                             = Value 23 at 0
0D05 0503 17013A                             = Value 23 at 0
0D0B 0509 170731313131313131                 = Value 23 at 0
0D05 0503 1A0104                             = Value 26 at 0
0D04 0502 1A00                               = Value 26 at 0
0D03 140102                                  = Value 20 at 0
0D05 1403000002                              = Value 20 at 0
0D02 1400                                    = Value 20 at 0
0D00                                         = Missing 20 at 0
0D06 0504 14020002                           = Missing 20 at 0
# its user data
0DFF0208 14020002 C1FF0200 *512              = CN 20=2 512 octets
0DFF0209 14020002 C1FF0201 *513              = Value 193 at 0
0DFF2808 14020002 C2FF2800 *10240            = CN 20=2 10240 octets
0DFF2809 14020002 C2FF2801 *10241            = Value 194 at 0
0DFF0208 14020002 C2FF0200 *512              = CN 20=2 512 octets
# of AC
0E09 0503 170135 1402002A                    = AC 20=42 23=5
0E0C 0503 170135 1402002A C10161             = AC 20=42 23=5 61
0E07 C20162 14020002                         = AC 20=2
0E04 1402FFFF                                = AC 20=65535
0E0A C10161 C10162 14020002                  = AC 20=2 62
0E0C 0506 130100 130100 14020002             = AC 20=2
0E0C 0506 160102 160102 14020002             = AC 20=2
0E0C 0506 170131 170132 14020002             = AC 20=2 23=2
0E0C 0506 1A0100 1A0100 14020002             = AC 20=2 26=0
0E08 14020002 1402002A                       = AC 20=42
0E05 0503 130101                             = Value 19 at 0
0E04 0502 1600                               = Value 22 at 0
0E05 0503 17013A                             = Value 23 at 0
0E08 0502 9900 14020002                      = AC 20=2
0E08 01020AFF 14020002                       = AC 20=2
0E04 0502 1700                               = Value 23 at 0
0E05 0503 1A0104                             = Value 26 at 0
0E02 1400                                    = Value 20 at 0
0E00                                         = Missing 20 at 0
0E02 0500                                    = Missing 20 at 0
0EFF020C 14020002 C1FF0204 *516              = AC 20=2 516 octets
# of RF
0C03 320102                                  = RF 50=2
0C03 320100                                  = RF 50=0
0C08 3203026869 320101                       = RF 50=1
0C08 320101 3203026869                       = RF 50=2 6869
0C06 320100 C10178                           = RF 50=0
0C05 9900 320101                             = RF 50=1
0C02 3200                                    = Value 50 at 0
0C00                                         = Missing 50 at 0
0C03 C10178                                  = Missing 50 at 0
# of FN and DN
0906 C10161 C10162                           = FN 62
0903 110100                                  = FN
0905 9900 C10161                             = FN 61
09FE C1FC *252                               = FN 252 octets
09FF00FF C1FD *253                           = FN 253 octets
09FF0100 C1FE *254                           = FN 254 octets
09FF0103 C1FF00FF *255                       = FN 255 octets
09FF0104 C1FF0100 *256                       = FN 256 octets
09FFFFFF C1FFFFFB *65531                     = FN 65531 octets
0A05 C100 C20162                             = DN
0A06 C10161 C10162                           = DN 62
0A05 C10161 9900                             = DN 61
# of AB and AA
1900                                         = AB
1903 C10178                                  = AB 78
1906 110101 110102                           = AB 17=2
1906 C10161 C10162                           = AB 62
1902 1100                                    = Value 17 at 0
1904 11020000                                = Value 17 at 0
1905 9900 110105                             = AB 17=5
1A03 110102                                  = AA
1A03 C10178                                  = AA
# of GT
0106 100104 100104                           = GT 16=4
0103 110102                                  = GT
0103 100105                                  = Value 16 at 0
0104 10020404                                = Value 16 at 0
0102 1000                                    = Value 16 at 0
# of MIP and MIA
0100 3106 0F0101 2A0131                      = GT, MIP 42=1
0100 3106 2A0131 1A0109                      = GT, MIP 42=1
0100 3106 2A0131 2A0132                      = GT, MIP 42=2
0100 3106 2A0131 2A012F                      = Value 42 at 2
0100 3106 2A013A 2A0131                      = Value 42 at 2
0100 3109 2A0731313131313131                 = Value 42 at 2
0100 3102 2A00                               = Value 42 at 2
0100 3100                                    = Missing 42 at 2
0100 3208 2A06303030303130                   = GT, MIA 42=10
0100 3206 2A0139 2A0138                      = GT, MIA 42=8
0100 3202 2A00                               = Value 42 at 2
0100 3203 2A013A                             = Value 42 at 2
0100 3200                                    = Missing 42 at 2
0100 3205 2A0139 9900                        = GT, MIA 42=9
# of RS
0100 3506 1B0100 2A0131                      = GT, RS 27=0 42=1
0100 3508 9900 1B0100 2A0131                 = GT, RS 27=0 42=1
0100 350C 1A0100 1A0104 1B0100 2A0131        = GT, RS 26=4 27=0 42=1
0100 3509 1B0100 1B0101 2A0131               = GT, RS 27=1 42=1
0100 3509 1B0101 2A0131 2A0132               = GT, RS 27=1 42=2
0100 350C 1B0101 2A0131 C10161 C10162        = GT, RS 27=1 42=1 62
0100 3503 1A0101                             = Value 26 at 2
0100 3502 1A00                               = Value 26 at 2
0100 3503 1B0102                             = Value 27 at 2
0100 3502 1B00                               = Value 27 at 2
0100 3506 1B0100 2A013A                      = Value 42 at 2
0100 3505 1B0100 2A00                        = Value 42 at 2
0100 3503 1B0100                             = Missing 42 at 2
0100 3503 2A0131                             = Missing 27 at 2
0100 3500                                    = Missing 27 at 2
0100 3507 1A0101 2A0531 31                   = Value 26 at 2
# of RA
0100 2203 2A0131                             = GT, RA 42=1
0100 2206 1B0107 2A0131                      = GT, RA 42=1
0100 2205 2A0131 9900                        = GT, RA 42=1
0100 2206 1A0104 2A0130                      = GT, RA 26=4 42=0
0100 2209 1A0100 1A0104 2A0130               = GT, RA 26=4 42=0
0100 2206 2A0131 2A0132                      = GT, RA 42=2
0100 2209 2A0131 C10161 C10162               = GT, RA 42=1 62
0100 2203 1A0102                             = Value 26 at 2
0100 2203 2A013A                             = Value 42 at 2
0100 2202 2A00                               = Value 42 at 2
0100 2203 1A0100                             = Missing 42 at 2
0100 2200                                    = Missing 42 at 2
# places
0103100105 3100                              = Value 16 at 0
0103100104 3100                              = Missing 42 at 5
01FF0003100104 3100                          = Missing 42 at 7
0100 3202 2A00                               = Value 42 at 2
0100 3506 2A0531 1A0101                      = Length 5
01FF0000 01FF0000 78                         = GT, DT 78
0103990104 3103 2A0131                       = GT, MIP 42=1
";
