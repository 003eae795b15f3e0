// A book file to begin with.

/// A book file with every statement, and what each of them says. All its calls are granted.
pub static TEMPLATE: &str =
    "# A book file with every statement. What stands behind a number sign is a comment; amounts are in cents, and prices in millionths of a
# euro a point and year where nothing else is said.

# the year's table: its days, the commercial price, GS and UG1 in millionths of a cent a Smc, the rate of return in ten-thousandths, and six prices that recover costs
tariff days=365 commercial=1825000 gs=100000 ug1=40000 rate=560 cou=1500000 coa=500000 telcon=3000000 avv=4000000 ins=3000000 rac=2000000
# lines 1 and 2 of an area, by meter class
distribution area=1 class1=36500000 class2=36500000 class3=36500000
metering area=1 class1=18250000 class2=18250000 class3=18250000
# line 4: where a bracket ends, in Smc, its price in millionths of a cent a Smc, and the coefficient of an area in millionths
bracket end=1000000000 price=5000000
coefficient area=1 value=1000000
# in how many years the assets of row 3 lose their value
life row=3 years=20
# the operating prices, by size and density; with areawide=1 those of the area-wide rule
management areawide=0 small1=30000000 small2=28000000 small3=26000000 medium1=27000000 medium2=25000000 medium3=23000000 large1=24000000 large2=22000000 large3=20000000
# the number of the book, what its account begins with, and how many entries its journal takes
opening number=7 sum=0
journal capacity=1048576

# a company with its yearly advance and the number of its instalments; its locality, whose state is 1 in regime and 2 in start-up; a delivery point in it; and a bill
register company=0 advance=100000 instalments=3 verification=0 central=1000 points=100 density=1 award=1
file locality=0 company=0 state=1 area=1 expected=100 smart=40 gross3=1000000 net3=600000
enrol point=0 locality=0 class=1 domestic=0
bill point=0 volume=500 days=73

# an instalment is drawn, sent and confirmed; before it is sent it can be cancelled, and a sent one may bounce:
#   cancel book=7 company=0 instalment=1
#   bounce book=7 company=0 instalment=1
draw company=0
send book=7 company=0 instalment=1
confirm book=7 company=0 instalment=1

# questions: service 1 is distribution, 2 metering
cost locality=0 service=1
component locality=0 service=2
served company=0
revenue company=0
balance company=0
account

# the year is closed, and reopened for a correction
close company=0
reopen company=0
";
