//! The names of the usages that reports of this keyboard can have. `tools/make/usage_names.py --write` makes this file from
//! `rust/wuzhikar-hid/src/usages.txt`.

/// Page 07h (HUT section 10): a usage in hex and its name in each line.
pub(crate) const KEYBOARD: &str = "\
01 Keyboard ErrorRollOver
02 Keyboard POSTFail
03 Keyboard ErrorUndefined
04 Keyboard a and A
05 Keyboard b and B
06 Keyboard c and C
07 Keyboard d and D
08 Keyboard e and E
09 Keyboard f and F
0A Keyboard g and G
0B Keyboard h and H
0C Keyboard i and I
0D Keyboard j and J
0E Keyboard k and K
0F Keyboard l and L
10 Keyboard m and M
11 Keyboard n and N
12 Keyboard o and O
13 Keyboard p and P
14 Keyboard q and Q
15 Keyboard r and R
16 Keyboard s and S
17 Keyboard t and T
18 Keyboard u and U
19 Keyboard v and V
1A Keyboard w and W
1B Keyboard x and X
1C Keyboard y and Y
1D Keyboard z and Z
1E Keyboard 1 and !
1F Keyboard 2 and @
20 Keyboard 3 and #
21 Keyboard 4 and $
22 Keyboard 5 and %
23 Keyboard 6 and ^
24 Keyboard 7 and &
25 Keyboard 8 and *
26 Keyboard 9 and (
27 Keyboard 0 and )
28 Keyboard Return (ENTER)
29 Keyboard ESCAPE
2A Keyboard DELETE (Backspace)
2B Keyboard Tab
2C Keyboard Spacebar
2D Keyboard - and (underscore)
2E Keyboard = and +
2F Keyboard [ and {
30 Keyboard ] and }
31 Keyboard \\ and bar
32 Keyboard Non-US # and ~
33 Keyboard ; and :
34 Keyboard ' and \"
35 Keyboard Grave Accent and Tilde
36 Keyboard , and <
37 Keyboard . and >
38 Keyboard / and ?
39 Keyboard Caps Lock
3A Keyboard F1
3B Keyboard F2
3C Keyboard F3
3D Keyboard F4
3E Keyboard F5
3F Keyboard F6
40 Keyboard F7
41 Keyboard F8
42 Keyboard F9
43 Keyboard F10
44 Keyboard F11
45 Keyboard F12
46 Keyboard PrintScreen
47 Keyboard Scroll Lock
48 Keyboard Pause
49 Keyboard Insert
4A Keyboard Home
4B Keyboard PageUp
4C Keyboard Delete Forward
4D Keyboard End
4E Keyboard PageDown
4F Keyboard RightArrow
50 Keyboard LeftArrow
51 Keyboard DownArrow
52 Keyboard UpArrow
53 Keypad Num Lock and Clear
54 Keypad /
55 Keypad *
56 Keypad -
57 Keypad +
58 Keypad ENTER
59 Keypad 1 and End
5A Keypad 2 and Down Arrow
5B Keypad 3 and PageDn
5C Keypad 4 and Left Arrow
5D Keypad 5
5E Keypad 6 and Right Arrow
5F Keypad 7 and Home
60 Keypad 8 and Up Arrow
61 Keypad 9 and PageUp
62 Keypad 0 and Insert
63 Keypad . and Delete
64 Keyboard Non-US \\ and bar
65 Keyboard Application
66 Keyboard Power
67 Keypad =
68 Keyboard F13
69 Keyboard F14
6A Keyboard F15
6B Keyboard F16
6C Keyboard F17
6D Keyboard F18
6E Keyboard F19
6F Keyboard F20
70 Keyboard F21
71 Keyboard F22
72 Keyboard F23
73 Keyboard F24
74 Keyboard Execute
75 Keyboard Help
76 Keyboard Menu
77 Keyboard Select
78 Keyboard Stop
79 Keyboard Again
7A Keyboard Undo
7B Keyboard Cut
7C Keyboard Copy
7D Keyboard Paste
7E Keyboard Find
7F Keyboard Mute
80 Keyboard Volume Up
81 Keyboard Volume Down
82 Keyboard Locking Caps Lock
83 Keyboard Locking Num Lock
84 Keyboard Locking Scroll Lock
85 Keypad Comma
86 Keypad Equal Sign
87 Keyboard International1
88 Keyboard International2
89 Keyboard International3
8A Keyboard International4
8B Keyboard International5
8C Keyboard International6
8D Keyboard International7
8E Keyboard International8
8F Keyboard International9
90 Keyboard LANG1
91 Keyboard LANG2
92 Keyboard LANG3
93 Keyboard LANG4
94 Keyboard LANG5
95 Keyboard LANG6
96 Keyboard LANG7
97 Keyboard LANG8
98 Keyboard LANG9
99 Keyboard Alternate Erase
9A Keyboard SysReq/Attention
9B Keyboard Cancel
9C Keyboard Clear
9D Keyboard Prior
9E Keyboard Return
9F Keyboard Separator
A0 Keyboard Out
A1 Keyboard Oper
A2 Keyboard Clear/Again
A3 Keyboard CrSel/Props
A4 Keyboard ExSel
E0 Keyboard LeftControl
E1 Keyboard LeftShift
E2 Keyboard LeftAlt
E3 Keyboard Left GUI
E4 Keyboard RightControl
E5 Keyboard RightShift
E6 Keyboard RightAlt
E7 Keyboard Right GUI";

/// Page 0Ch (HUT section 15): the same.
pub(crate) const CONSUMER: &str = "\
01 Consumer Control
02 Numeric Key Pad
03 Programmable Buttons
04 Microphone
05 Headphone
06 Graphic Equalizer
20 +10
21 +100
22 AM/PM
30 Power
31 Reset
32 Sleep
33 Sleep After
34 Sleep Mode
35 Illumination
36 Function Buttons
40 Menu
41 Menu Pick
42 Menu Up
43 Menu Down
44 Menu Left
45 Menu Right
46 Menu Escape
47 Menu Value Increase
48 Menu Value Decrease
60 Data On Screen
61 Closed Caption
62 Closed Caption Select
63 VCR/TV
64 Broadcast Mode
65 Snapshot
66 Still
67 Picture-in-Picture Toggle
68 Picture-in-Picture Swap
69 Red Menu Button
6A Green Menu Button
6B Blue Menu Button
6C Yellow Menu Button
6D Aspect
6E 3D Mode Select
6F Display Brightness Increment
70 Display Brightness Decrement
71 Display Brightness
72 Display Backlight Toggle
73 Display Set Brightness to Minimum
74 Display Set Brightness to Maximum
75 Display Set Auto Brightness
76 Camera Access Enabled
77 Camera Access Disabled
78 Camera Access Toggle
79 Keyboard Brightness Increment
7A Keyboard Brightness Decrement
7B Keyboard Backlight Set Level
7C Keyboard Backlight OOC
7D Keyboard Backlight Set Minimum
7E Keyboard Backlight Set Maximum
7F Keyboard Backlight Auto
80 Selection
81 Assign Selection
82 Mode Step
83 Recall Last
84 Enter Channel
85 Order Movie
86 Channel
87 Media Selection
88 Media Select Computer
89 Media Select TV
8A Media Select WWW
8B Media Select DVD
8C Media Select Telephone
8D Media Select Program Guide
8E Media Select Video Phone
8F Media Select Games
90 Media Select Messages
91 Media Select CD
92 Media Select VCR
93 Media Select Tuner
94 Quit
95 Help
96 Media Select Tape
97 Media Select Cable
98 Media Select Satellite
99 Media Select Security
9A Media Select Home
9B Media Select Call
9C Channel Increment
9D Channel Decrement
9E Media Select SAP
A0 VCR Plus
A1 Once
A2 Daily
A3 Weekly
A4 Monthly
B0 Play
B1 Pause
B2 Record
B3 Fast Forward
B4 Rewind
B5 Scan Next Track
B6 Scan Previous Track
B7 Stop
B8 Eject
B9 Random Play
BA Select Disc
BB Enter Disc
BC Repeat
BD Tracking
BE Track Normal
BF Slow Tracking
C0 Frame Forward
C1 Frame Back
C2 Mark
C3 Clear Mark
C4 Repeat From Mark
C5 Return To Mark
C6 Search Mark Forward
C7 Search Mark Backwards
C8 Counter Reset
C9 Show Counter
CA Tracking Increment
CB Tracking Decrement
CC Stop/Eject
CD Play/Pause
CE Play/Skip
CF Voice Command
D0 Invoke Capture Interface
D1 Start or Stop Game Recording
D2 Historical Game Capture
D3 Capture Game Screenshot
D4 Show or Hide Recording Indicator
D5 Start or Stop Microphone Capture
D6 Start or Stop Camera Capture
D7 Start or Stop Game Broadcast
D8 Start or Stop Voice Dictation Session
D9 Invoke/Dismiss Emoji Picker
E0 Volume
E1 Balance
E2 Mute
E3 Bass
E4 Treble
E5 Bass Boost
E6 Surround Mode
E7 Loudness
E8 MPX
E9 Volume Increment
EA Volume Decrement
F0 Speed Select
F1 Playback Speed
F2 Standard Play
F3 Long Play
F4 Extended Play
F5 Slow
100 Fan Enable
101 Fan Speed
102 Light Enable
103 Light Illumination Level
104 Climate Control Enable
105 Room Temperature
106 Security Enable
107 Fire Alarm
108 Police Alarm
109 Proximity
10A Motion
10B Duress Alarm
10C Holdup Alarm
10D Medical Alarm
150 Balance Right
151 Balance Left
152 Bass Increment
153 Bass Decrement
154 Treble Increment
155 Treble Decrement
160 Speaker System
161 Channel Left
162 Channel Right
163 Channel Center
164 Channel Front
165 Channel Center Front
166 Channel Side
167 Channel Surround
168 Channel Low Frequency Enhancement
169 Channel Top
16A Channel Unknown
170 Sub-channel
171 Sub-channel Increment
172 Sub-channel Decrement
173 Alternate Audio Increment
174 Alternate Audio Decrement
180 Application Launch Buttons
181 AL Launch Button Configuration Tool
182 AL Programmable Button Configuration
183 AL Consumer Control Configuration
184 AL Word Processor
185 AL Text Editor
186 AL Spreadsheet
187 AL Graphics Editor
188 AL Presentation App
189 AL Database App
18A AL Email Reader
18B AL Newsreader
18C AL Voicemail
18D AL Contacts/Address Book
18E AL Calendar/Schedule
18F AL Task/Project Manager
190 AL Log/Journal/Timecard
191 AL Checkbook/Finance
192 AL Calculator
193 AL A/V Capture/Playback
194 AL Local Machine Browser
195 AL LAN/WAN Browser
196 AL Internet Browser
197 AL Remote Networking/ISP Connect
198 AL Network Conference
199 AL Network Chat
19A AL Telephony/Dialer
19B AL Logon
19C AL Logoff
19D AL Logon/Logoff
19E AL Terminal Lock/Screensaver
19F AL Control Panel
1A0 AL Command Line Processor/Run
1A1 AL Process/Task Manager
1A2 AL Select Task/Application
1A3 AL Next Task/Application
1A4 AL Previous Task/Application
1A5 AL Preemptive Halt Task/Application
1A6 AL Integrated Help Center
1A7 AL Documents
1A8 AL Thesaurus
1A9 AL Dictionary
1AA AL Desktop
1AB AL Spell Check
1AC AL Grammar Check
1AD AL Wireless Status
1AE AL Keyboard Layout
1AF AL Virus Protection
1B0 AL Encryption
1B1 AL Screen Saver
1B2 AL Alarms
1B3 AL Clock
1B4 AL File Browser
1B5 AL Power Status
1B6 AL Image Browser
1B7 AL Audio Browser
1B8 AL Movie Browser
1B9 AL Digital Rights Manager
1BA AL Digital Wallet
1BC AL Instant Messaging
1BD AL OEM Features/Tips/Tutorial Browser
1BE AL OEM Help
1BF AL Online Community
1C0 AL Entertainment Content Browser
1C1 AL Online Shopping Browser
1C2 AL SmartCard Information/Help
1C3 AL Market Monitor/Finance Browser
1C4 AL Customized Corporate News Browser
1C5 AL Online Activity Browser
1C6 AL Research/Search Browser
1C7 AL Audio Player
1C8 AL Message Status
1C9 AL Contact Sync
1CA AL Navigation
1CB AL Context-aware Desktop Assistant
200 Generic GUI Application Controls
201 AC New
202 AC Open
203 AC Close
204 AC Exit
205 AC Maximize
206 AC Minimize
207 AC Save
208 AC Print
209 AC Properties
21A AC Undo
21B AC Copy
21C AC Cut
21D AC Paste
21E AC Select All
21F AC Find
220 AC Find and Replace
221 AC Search
222 AC Go To
223 AC Home
224 AC Back
225 AC Forward
226 AC Stop
227 AC Refresh
228 AC Previous Link
229 AC Next Link
22A AC Bookmarks
22B AC History
22C AC Subscriptions
22D AC Zoom In
22E AC Zoom Out
22F AC Zoom
230 AC Full Screen View
231 AC Normal View
232 AC View Toggle
233 AC Scroll Up
234 AC Scroll Down
235 AC Scroll
236 AC Pan Left
237 AC Pan Right
238 AC Pan
239 AC New Window
23A AC Tile Horizontally
23B AC Tile Vertically
23C AC Format
23D AC Edit
23E AC Bold
23F AC Italics
240 AC Underline
241 AC Strikethrough
242 AC Subscript
243 AC Superscript
244 AC All Caps
245 AC Rotate
246 AC Resize
247 AC Flip Horizontal
248 AC Flip Vertical
249 AC Mirror Horizontal
24A AC Mirror Vertical
24B AC Font Select
24C AC Font Color
24D AC Font Size
24E AC Justify Left
24F AC Justify Center H
250 AC Justify Right
251 AC Justify Block H
252 AC Justify Top
253 AC Justify Center V
254 AC Justify Bottom
255 AC Justify Block V
256 AC Indent Decrease
257 AC Indent Increase
258 AC Numbered List
259 AC Restart Numbering
25A AC Bulleted List
25B AC Promote
25C AC Demote
25D AC Yes
25E AC No
25F AC Cancel
260 AC Catalog
261 AC Buy/Checkout
262 AC Add to Cart
263 AC Expand
264 AC Expand All
265 AC Collapse
266 AC Collapse All
267 AC Print Preview
268 AC Paste Special
269 AC Insert Mode
26A AC Delete
26B AC Lock
26C AC Unlock
26D AC Protect
26E AC Unprotect
26F AC Attach Comment
270 AC Delete Comment
271 AC View Comment
272 AC Select Word
273 AC Select Sentence
274 AC Select Paragraph
275 AC Select Column
276 AC Select Row
277 AC Select Table
278 AC Select Object
279 AC Redo/Repeat
27A AC Sort
27B AC Sort Ascending
27C AC Sort Descending
27D AC Filter
27E AC Set Clock
27F AC View Clock
280 AC Select Time Zone
281 AC Edit Time Zones
282 AC Set Alarm
283 AC Clear Alarm
284 AC Snooze Alarm
285 AC Reset Alarm
286 AC Synchronize
287 AC Send/Receive
288 AC Send To
289 AC Reply
28A AC Reply All
28B AC Forward Msg
28C AC Send
28D AC Attach File
28E AC Upload
28F AC Download (Save Target As)
290 AC Set Borders
291 AC Insert Row
292 AC Insert Column
293 AC Insert File
294 AC Insert Picture
295 AC Insert Object
296 AC Insert Symbol
297 AC Save and Close
298 AC Rename
299 AC Merge
29A AC Split
29B AC Distribute Horizontally
29C AC Distribute Vertically
29D AC Next Keyboard Layout Select
29E AC Navigation Guidance
29F AC Desktop Show All Windows
2A0 AC Soft Key Left
2A1 AC Soft Key Right
2A2 AC Desktop Show All Applications
2B0 AC Idle Keep Alive
2C0 Extended Keyboard Attributes Collection
2C1 Keyboard Form Factor
2C2 Keyboard Key Type
2C3 Keyboard Physical Layout
2C4 Vendor-Specific Keyboard Physical Layout
2C5 Keyboard IETF Language Tag Index
2C6 Implemented Keyboard Input Assist Controls
2C7 Keyboard Input Assist Previous
2C8 Keyboard Input Assist Next
2C9 Keyboard Input Assist Previous Group
2CA Keyboard Input Assist Next Group
2CB Keyboard Input Assist Accept
2CC Keyboard Input Assist Cancel
2D0 Privacy Screen Toggle
2D1 Privacy Screen Level Decrement
2D2 Privacy Screen Level Increment
2D3 Privacy Screen Level Minimum
2D4 Privacy Screen Level Maximum";
